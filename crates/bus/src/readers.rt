// With which periods the results of each task are read (rules 21.8 and 21.9): a row of them for each task.
ghost use Rattle.std.specs.Prelude.{◌≡◌, [], ◌∷◌, map, ◌*◌, ◌≤◌, ◌<◌, take};
ghost use Rattle.std.proofs.lemmas.List.Edits.{sets};
ghost use Rattle.laws.specs.Lists.{keep};
ghost use Rattle.plan.specs.Memory.{seen};
ghost use Rattle.rules.specs.Limits.{most_tasks, most_invocations};
ghost use Rattle.rules.specs.Plan.{period_of};
ghost use Rattle.rules.specs.Readers.{is_reader, readers_of};
ghost use Rattle.rules.proofs.PlanKept.{PlanKept};
ghost use Rattle.bus.specs.Senders.{by_number};
ghost use Rattle.bus.specs.Runs.{mode_period};
ghost use Rattle.bus.specs.Readers.{leads_from, is_full, is_producer, needs_every, row_laid, readers_laid};

use crate::BYTES;
use crate::by_number::mark;
use crate::lists::{connections, invocations};
use crate::runs::{can_be_thinned, least_periods, mode_periods};
use figures::quotient;
use plan::{Invocation, Plan};
use units::TaskNo;

// Row t of `periods` stands at t * Invocation::MOST; its first `counts[t]` are the readers of task t, zeros behind.
#[derive(Clone, Copy)]
pub struct Readers {
    pub counts: [usize; TaskNo::MOST],
    pub periods: [u32; TaskNo::MOST * Invocation::MOST],
}

#[derive(Clone, Copy)]
struct Row {
    count: usize,
    periods: [u32; Invocation::MOST],
}

// Whether a connection that can't be thinned leads from each task.
fn full_tasks(p: Plan) -> [bool; BYTES]
    requires { PlanKept (seen p) }
    ensures { result ≡ by_number (is_full (seen p)) }
{
    let leasts = least_periods(p);
    let mut full = [false; BYTES];
    mark(&mut full, connections(&p), |connection| {
        (!can_be_thinned(connection, &leasts)).then_some(connection.producer.0)
    });
    full
}

// Whether every message of each task is needed.
fn tasks_in_full(p: Plan) -> [bool; BYTES]
    requires { PlanKept (seen p) }
    ensures { result ≡ by_number (needs_every (seen p)) }
{
    if p.consumers {
        full_tasks(p)
    } else {
        [true; BYTES]
    }
}

fn producers(p: Plan) -> [bool; BYTES]
    ensures { result ≡ by_number (is_producer (seen p)) }
{
    let mut found = [false; BYTES];
    mark(
        &mut found,
        connections(&p),
        |connection| Some(connection.producer.0),
    );
    found
}

fn consumers_of(p: Plan, t: usize) -> [bool; BYTES]
    ensures { result ≡ by_number (leads_from (seen p) t) }
{
    let mut found = [false; BYTES];
    mark(&mut found, connections(&p), |connection| {
        (usize::from(connection.producer.0) == t).then_some(connection.consumer.0)
    });
    found
}

// Every tick is read.
fn every_tick() -> Row
    ensures { result ≡ row_laid (1 ∷ []) }
{
    let mut periods = [0; Invocation::MOST];
    periods[0] = 1;
    Row { count: 1, periods }
}

fn nothing() -> Row
    ensures { result ≡ row_laid [] }
{
    Row {
        count: 0,
        periods: [0; Invocation::MOST],
    }
}

// The periods of the consumers of a task, from those of the modes. It is asked once for each task: `Runs::of` would do, and find the
// periods of modes and the worst times of tasks anew each time.
fn consumers_row(p: Plan, t: usize, lasting: &[u32; BYTES]) -> Row
    requires plan_kept { PlanKept (seen p) }
    requires lasting_value { lasting.now ≡ by_number (mode_period (seen p)) }
    ensures { result ≡ row_laid (map (period_of (seen p)) (keep (is_reader (seen p) t) (seen p).invocations)) }
{
    let marks = consumers_of(p, t);
    let mut periods = [0; Invocation::MOST];
    let mut count = 0;
    for invocation in invocations(&p) {
        let u = usize::from(invocation.task.0);
        if marks[u] {
            let m = usize::from(invocation.mode.0);
            periods[count] = quotient(lasting[m], invocation.rate);
            count += 1;
        }
    }
    Row { count, periods }
}

// The readers of a task, by whether every message of it is needed and whether some connection leads from it.
fn row_of(p: Plan, t: usize, full: bool, produces: bool, lasting: &[u32; BYTES]) -> Row
    requires plan_kept { PlanKept (seen p) × (lasting.now ≡ by_number (mode_period (seen p))) }
    requires full_value { (full ≡ needs_every (seen p) t) × (produces ≡ is_producer (seen p) t) }
    ensures { result ≡ row_laid (readers_of (seen p) t) }
{
    if full {
        return every_tick();
    }
    if produces {
        consumers_row(p, t, lasting)
    } else {
        nothing()
    }
}

fn put_row(
    periods: &mut [u32; TaskNo::MOST * Invocation::MOST],
    t: usize,
    n: usize,
    row: [u32; Invocation::MOST],
)
    requires { (t < most_tasks) × (n ≤ most_invocations) }
    ensures { periods.new ≡ sets periods.old (t * most_invocations) (take n row) }
{
    let from = t * Invocation::MOST;
    for (k, period) in row[..n].iter().enumerate() {
        periods[from + k] = *period;
    }
}

impl Readers {
    pub fn of(p: Plan) -> Readers
        requires { PlanKept (seen p) }
        ensures { result ≡ readers_laid (readers_of (seen p)) }
    {
        let full = tasks_in_full(p);
        let producing = producers(p);
        let lasting = mode_periods(p);
        let mut counts = [0; TaskNo::MOST];
        let mut periods = [0; TaskNo::MOST * Invocation::MOST];
        for t in 0..TaskNo::MOST {
            let row = row_of(p, t, full[t], producing[t], &lasting);
            let readers = row.periods;
            counts[t] = row.count;
            put_row(&mut periods, t, row.count, readers);
        }
        Readers { counts, periods }
    }
}
