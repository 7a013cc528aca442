// The messages of a plan: refusals 6 and 10 on tables by number, and how long each message takes.
#![tactic(auto)]

ghost use Rattle.std.specs.Prelude.{◌≡◌, true, cond, leb, length, ◌≤◌};
ghost use Rattle.std.specs.List.{list_any, list_all};
ghost use Rattle.laws.specs.Lists.{any, all, tab, up_to};
ghost use Rattle.rules.specs.Limits.{most_tasks};
ghost use Rattle.rules.proofs.PlanKept.{PlanKept};
ghost use Rattle.plan.specs.Memory.{seen};
ghost use Rattle.bus.specs.Senders.{every_byte};
ghost use Rattle.payloads.specs.Tests.{flag_at, message_keeps, payload_keeps, task_time};

use bus::{BYTES, lists};
use plan::Plan;
use times::sending_time;
use units::{ByteCount, TaskNo};

fn some_set(flags: &[bool]) -> bool
    ensures { result ≡ list_any (λ flag. flag) flags.now }
{
    flags.iter().any(|flag| *flag)
}

// Whether one of the first tasks is a bus task.
pub fn some_bus_task(tasks: [bool; BYTES], count: usize) -> bool
    requires { count ≤ every_byte }
    ensures { result ≡ any (flag_at tasks) (up_to count) }
{
    some_set(&tasks[..count])
}

// Whether the message of a bus task fits the largest payload; other tasks send none.
fn message_keeps(sends: bool, size: ByteCount, most: ByteCount) -> bool
    ensures { result ≡ cond sends (leb size.0 most.0) true }
{
    !sends || size <= most
}

pub fn messages_fit(p: Plan, tasks: [bool; BYTES]) -> bool
    ensures { result ≡ all (message_keeps tasks (seen p)) (up_to (length (seen p).tasks)) }
{
    let bus = p.bus;
    for (t, task) in lists::tasks(&p).iter().enumerate() {
        if !message_keeps(tasks[t], task.size, bus.most) {
            return false;
        }
    }
    true
}

fn all_fit(payloads: &[u8], most: ByteCount) -> bool
    ensures { result ≡ list_all (λ payload. leb payload most.0) payloads.now }
{
    payloads.iter().all(|payload| u32::from(*payload) <= most.0)
}

// Whether the control payloads of the first nodes fit the largest payload.
pub fn controls_fit(payloads: [u8; BYTES], nodes: usize, most: ByteCount) -> bool
    requires { nodes ≤ every_byte }
    ensures { result ≡ all (payload_keeps payloads most.0) (up_to nodes) }
{
    all_fit(&payloads[..nodes], most)
}

// The sending time of each task's message, by task; a task that the plan does not have would send no bytes.
pub fn message_times(p: Plan) -> [u32; TaskNo::MOST]
    requires { PlanKept (seen p) }
    ensures { result ≡ tab (task_time (seen p)) 0 most_tasks }
{
    let bus = p.bus;
    let none = sending_time(bus, ByteCount(0)).0 as u32;
    let mut times = [none; TaskNo::MOST];
    for (t, task) in lists::tasks(&p).iter().enumerate() {
        times[t] = sending_time(bus, task.size).0 as u32;
    }
    times
}
