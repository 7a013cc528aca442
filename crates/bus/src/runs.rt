// The invocations of marked tasks, bus tasks or others, each with its mode, its period and its task's worst time.
ghost use Rattle.std.specs.Prelude.{◌≡◌, cond, eqb, ltb, get_or, ◌≤◌, ◌<◌, min};
ghost use Rattle.plan.specs.Memory.{seen};
ghost use Rattle.rules.specs.Limits.{most_invocations};
ghost use Rattle.rules.proofs.PlanKept.{PlanKept};
ghost use Rattle.bus.specs.Senders.{every_byte, by_number};
ghost use Rattle.bus.specs.Runs.{mode_period, task_worst, least_period, runs_marked, runs_laid};

use crate::BYTES;
use crate::by_number::{at, fill};
use crate::lists::{invocations, modes, tasks};
use figures::quotient;
use plan::{Connection, Invocation, Plan};

// An array for each number of a run, so that each can be lent.
#[derive(Clone, Copy)]
pub struct Runs {
    pub count: usize,
    pub modes: [u8; Invocation::MOST],
    pub tasks: [u8; Invocation::MOST],
    pub periods: [u32; Invocation::MOST],
    pub worsts: [u32; Invocation::MOST],
}

pub fn mode_periods(p: Plan) -> [u32; BYTES]
    ensures { result ≡ by_number (mode_period (seen p)) }
{
    let mut periods = [0; BYTES];
    fill(&mut periods, modes(&p), |mode| mode.period.0);
    periods
}

// 0 stands for none before.
fn lesser(before: u32, period: u32) -> u32
    ensures { result ≡ cond (eqb before 0) period (min before period) }
{
    if before == 0 {
        period
    } else {
        before.min(period)
    }
}

// The least period of each task's invocations; 0 of a task that none invokes.
pub fn least_periods(p: Plan) -> [u32; BYTES]
    requires { PlanKept (seen p) }
    ensures { result ≡ by_number (least_period (seen p)) }
{
    let lasting = mode_periods(p);
    let mut leasts = [0; BYTES];
    for invocation in invocations(&p) {
        let t = usize::from(invocation.task.0);
        let m = usize::from(invocation.mode.0);
        let period = quotient(lasting[m], invocation.rate);
        leasts[t] = lesser(leasts[t], period);
    }
    leasts
}

// By the least periods of the tasks at both ends (rule 21.3).
pub fn can_be_thinned(connection: &Connection, leasts: &[u32; BYTES]) -> bool
    ensures value { result ≡ ltb (get_or leasts.now connection.now.producer.0 0) (get_or leasts.now connection.now.consumer.0 0) }
    ensures are_bytes { (connection.now.producer.0 < every_byte) × (connection.now.consumer.0 < every_byte) }
{
    at(leasts, connection.producer.0) < at(leasts, connection.consumer.0)
}

fn task_worsts(p: Plan) -> [u32; BYTES]
    ensures { result ≡ by_number (task_worst (seen p)) }
{
    let mut worsts = [0; BYTES];
    fill(&mut worsts, tasks(&p), |task| task.worst.0);
    worsts
}

impl Runs {
    pub fn of(p: Plan, marks: [bool; BYTES]) -> Runs
        ensures { (result ≡ runs_laid (runs_marked (seen p) marks)) × (result.count ≤ most_invocations) }
    {
        let lasting = mode_periods(p);
        let times = task_worsts(p);
        let mut modes = [0; Invocation::MOST];
        let mut tasks = [0; Invocation::MOST];
        let mut periods = [0; Invocation::MOST];
        let mut worsts = [0; Invocation::MOST];
        let mut count = 0;
        for invocation in invocations(&p) {
            let t = usize::from(invocation.task.0);
            if marks[t] {
                let m = usize::from(invocation.mode.0);
                modes[count] = invocation.mode.0;
                tasks[count] = invocation.task.0;
                periods[count] = quotient(lasting[m], invocation.rate);
                worsts[count] = times[t];
                count += 1;
            }
        }
        Runs {
            count,
            modes,
            tasks,
            periods,
            worsts,
        }
    }
}
