// From the runs of bus tasks to the frames by number, straight from message to message in the frames' order: of each run the next
// message that is read waits in a tree, by deadline, then by task. Runs, readers and frames stand in an array for each number, lent.
#![tactic(auto)]

ghost use Rattle.std.specs.Prelude.{◌≡◌, true, map, get_or, suc, ◌+◌, ◌-◌, ◌*◌, ◌≤◌, ◌<◌};
ghost use Rattle.std.specs.Int.{◌∣◌};
ghost use Rattle.laws.specs.Lists.{all};
ghost use Rattle.laws.specs.Numbers.{up, down, least};
ghost use Rattle.rules.specs.Limits.{longest_time, most_frames, most_invocations, most_tasks};
ghost use Rattle.rules.specs.Direct.{read_after, place_of, walk_runs};
ghost use Rattle.bus.specs.Readers.{readers_seen};
ghost use Rattle.frames.specs.Walk.{runs_in, is_fair, AreRead, key_of, latest_deadline, Readable, Ready, Planted, Waiting, CellMet, frame_at, Stored, Derived};

pub mod laid;

use plan::Invocation;
use tree::{PLACES, grow, leaves, raise};
use units::{Frame, TaskNo, Ticks};

// How many keys a task has, one for each run; how many tasks a deadline has; and so how many keys a deadline has.
const RUNS: u32 = Invocation::MOST as u32;

const TASKS: u32 = TaskNo::MOST as u32;

const CELLS: u32 = TASKS * RUNS;

fn task_no(t: u32) -> TaskNo
    requires { t < most_tasks }
    ensures { result.0 ≡ t }
{
    TaskNo(t as u8)
}

// One tick behind the release of the message that has to be there by `d`.
fn behind_release(d: Ticks, period: Ticks, worst: Ticks) -> Ticks
    requires period_le_d { period.0 ≤ d.0 }
    requires worst_le_period { worst.0 ≤ period.0 }
    requires d_le_longest_time { d.0 ≤ longest_time }
    ensures { result.0 ≡ suc (d.0 - period.0 + worst.0) }
{
    Ticks(d.0 - period.0 + worst.0 + 1)
}

// The first deadline not before `first`, a multiple of `period`, whose message is read with period `reader` (rule 21.9): that of the run
// which ended last when it is read next. Who reads as often as the run ends, or more often, reads every message.
fn read_from(period: u32, first: u32, reader: u32) -> u32
    requires period_nonzero { (0 < period) × (period ∣ first) × (first ≤ latest_deadline) }
    requires reader_nonzero { (0 < reader) × (reader ≤ longest_time) }
    ensures { result ≡ down period (up reader first) }
{
    if reader <= period {
        return first;
    }
    let read = (first + (reader - 1)) / reader * reader;
    read / period * period
}

// The first deadline behind `d`, itself one, of a run of `task` whose message is read: the first of those by its readers. None is before the
// run's next end.
fn next_read(
    period: u32,
    d: u32,
    reader_counts: &[usize; TaskNo::MOST],
    reader_periods: &[u32; TaskNo::MOST * Invocation::MOST],
    task: TaskNo,
) -> u32
    requires period_nonzero { (0 < period) × (period ∣ d) × (d + period ≤ latest_deadline) × (task.0 < most_tasks) }
    requires readable { Readable (readers_seen reader_counts.now reader_periods.now task.0) }
    ensures { result ≡ least (map (read_after period d) (readers_seen reader_counts.now reader_periods.now task.0)) }
{
    let first = d + period;
    let place = task.0 as usize;
    let row = place * Invocation::MOST;
    let count = reader_counts[place];
    let mut next = read_from(period, first, reader_periods[row]);
    for i in 1..count {
        if next == first {
            return next;
        }
        next = next.min(read_from(period, first, reader_periods[row + i]));
    }
    next
}

// A message waits by its deadline, then by its task, then by its run.
fn key(deadline: Ticks, task: TaskNo, run: usize) -> u32
    requires deadline_le_latest_deadline { deadline.0 ≤ latest_deadline }
    requires run_lt_most_invocations { run < most_invocations }
    ensures { result ≡ key_of deadline.0 task.0 run }
{
    (deadline.0 * TASKS + task.0 as u32) * RUNS + run as u32
}

// The first message of each run that is read, by its key; behind the runs a key that is behind all deadlines.
fn plant(
    task: &[u8; Invocation::MOST],
    period: &[u32; Invocation::MOST],
    worst: &[u32; Invocation::MOST],
    reader_counts: &[usize; TaskNo::MOST],
    reader_periods: &[u32; TaskNo::MOST * Invocation::MOST],
    runs: usize,
    cycle: Ticks,
    size: usize,
) -> [u32; PLACES]
    requires { Ready (readers_seen reader_counts.now reader_periods.now) task.now period.now worst.now runs size cycle.0 }
    ensures { Planted (readers_seen reader_counts.now reader_periods.now) task.now period.now worst.now runs size cycle.0 result }
{
    let last = cycle.0;
    let mut tree = [(last + 1) * CELLS; PLACES];
    for i in 0..runs {
        let t = TaskNo(task[i]);
        let next = next_read(period[i], 0, reader_counts, reader_periods, t);
        tree[size + i] = key(Ticks(next), t, i);
    }
    tree
}

// What the messages of one task and deadline come to: one more than their greatest release; the root behind them; and how many they are.
#[derive(Clone, Copy)]
struct Met {
    best: Ticks,
    root: u32,
    taken: usize,
}

// Takes the messages of task `t` that have to be there by `d`. Each run that ends waits with its next message.
fn meet(
    task: &[u8; Invocation::MOST],
    period: &[u32; Invocation::MOST],
    worst: &[u32; Invocation::MOST],
    reader_counts: &[usize; TaskNo::MOST],
    reader_periods: &[u32; TaskNo::MOST * Invocation::MOST],
    runs: usize,
    cycle: Ticks,
    size: usize,
    d: Ticks,
    t: TaskNo,
    first: u32,
    tree: &mut [u32; PLACES],
) -> Met
    requires ready { Ready (readers_seen reader_counts.now reader_periods.now) task.now period.now worst.now runs size cycle.0 }
    requires d_nonzero { (0 < d.0) × (d.0 ≤ cycle.0) × (t.0 < most_tasks) }
    requires waiting { Waiting (readers_seen reader_counts.now reader_periods.now) task.now period.now worst.now runs size cycle.0 (place_of d.0 t.0) (place_of d.0 t.0) tree.old }
    requires first_value { first ≡ get_or tree.old 1 0 }
    ensures { CellMet (readers_seen reader_counts.now reader_periods.now) task.now period.now worst.now runs size cycle.0 d.0 t.0 tree.new result.best.0 result.root result.taken }
{
    // As a number: the loop's invariant speaks of it, and a struct that the loop does not read is not there any more.
    let last = cycle.0;
    let end = (d.0 * TASKS + t.0 as u32 + 1) * RUNS;
    let mut root = first;
    let mut best = 0;
    let mut taken = 0;
    while root < end {
        let i = (root % RUNS) as usize;
        let b = behind_release(d, Ticks(period[i]), Ticks(worst[i]));
        best = best.max(b.0);
        let next = next_read(period[i], d.0, reader_counts, reader_periods, t);
        root = raise(tree, size, i, key(Ticks(next), t, i));
        taken += 1;
    }
    Met {
        best: Ticks(best),
        root,
        taken,
    }
}

// Stores the frame of task `t` at deadline `d` at place `n`, if there is one. One more than there are places is counted and not stored.
fn put(
    t: TaskNo,
    d: Ticks,
    b: Ticks,
    n: usize,
    tasks: &mut [u8; Frame::MOST],
    releases: &mut [u32; Frame::MOST],
    deadlines: &mut [u32; Frame::MOST],
) -> usize
    requires { n ≤ most_frames }
    ensures { Stored tasks.old releases.old deadlines.old n (frame_at t.0 d.0 b.0) tasks.new releases.new deadlines.new result }
{
    if b.0 == 0 {
        return n;
    }
    if n == Frame::MOST {
        return n + 1;
    }
    tasks[n] = t.0;
    releases[n] = b.0 - 1;
    deadlines[n] = d.0;
    n + 1
}

// How many frames a walk found, one more than there are places where there are too many; and in how many steps. A step takes a message.
#[derive(Clone, Copy)]
pub struct Walked {
    pub count: usize,
    pub steps: usize,
}

// The frames by number, straight from one to the next (rule 13.4). The one for which there is no place is counted and not stored.
pub fn derive<'a, 'b>(
    task: &'a [u8; Invocation::MOST],
    period: &'a [u32; Invocation::MOST],
    worst: &'a [u32; Invocation::MOST],
    reader_counts: &'b [usize; TaskNo::MOST],
    reader_periods: &'b [u32; TaskNo::MOST * Invocation::MOST],
    runs: usize,
    cycle: Ticks,
    tasks: &mut [u8; Frame::MOST],
    releases: &mut [u32; Frame::MOST],
    deadlines: &mut [u32; Frame::MOST],
) -> Walked
    requires runs_le_most_invocations { runs ≤ most_invocations }
    requires cycle_le_longest_time { cycle.0 ≤ longest_time }
    requires runs_value { all (is_fair cycle.0) (runs_in task.now period.now worst.now runs) ≡ true }
    requires are_read { AreRead (readers_seen reader_counts.now reader_periods.now) cycle.0 (runs_in task.now period.now worst.now runs) }
    ensures derived { Derived tasks.old releases.old deadlines.old (walk_runs (readers_seen reader_counts.now reader_periods.now) cycle.0 (runs_in task.now period.now worst.now runs)) tasks.new releases.new deadlines.new result.count result.steps }
    ensures steps_bound { result.steps ≤ suc most_frames * runs }
{
    let limit = (cycle.0 + 1) * CELLS;
    let size = leaves(runs);
    let mut tree = plant(
        task,
        period,
        worst,
        reader_counts,
        reader_periods,
        runs,
        cycle,
        size,
    );
    grow(&mut tree, size);
    let mut root = tree[1];
    let mut count = 0;
    let mut steps = 0;
    while root < limit {
        let d = Ticks(root / CELLS);
        let t = task_no(root / RUNS % TASKS);
        let met = meet(
            task,
            period,
            worst,
            reader_counts,
            reader_periods,
            runs,
            cycle,
            size,
            d,
            t,
            root,
            &mut tree,
        );
        count = put(t, d, met.best, count, tasks, releases, deadlines);
        steps += met.taken;
        if count > Frame::MOST {
            return Walked { count, steps };
        }
        root = met.root;
    }
    Walked { count, steps }
}
