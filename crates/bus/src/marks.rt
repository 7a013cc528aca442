// Which tasks' runs give P and which modules' modes give G, in the plan's edition.
ghost use Rattle.std.specs.Prelude.{◌≡◌};
ghost use Rattle.plan.specs.Memory.{seen};
ghost use Rattle.rules.specs.Traffic.{is_bus_task, is_sending};
ghost use Rattle.rules.proofs.PlanKept.{PlanKept};
ghost use Rattle.bus.specs.Senders.{by_number};
ghost use Rattle.bus.specs.Marks.{is_counted_task, holds_end, gives_period, gives_grid};

use crate::BYTES;
use crate::by_number::{at, mark};
use crate::lists::connections;
use crate::runs::{can_be_thinned, least_periods};
use crate::senders::task_homes;
use plan::Plan;

// The bus tasks, and the consumers of connections that can be thinned (rule 21.4).
fn with_consumers(p: Plan, bus: &[bool; BYTES]) -> [bool; BYTES]
    requires plan_kept { PlanKept (seen p) }
    requires bus_value { bus.now ≡ by_number (is_bus_task (seen p)) }
    ensures { result ≡ by_number (is_counted_task (seen p)) }
{
    let leasts = least_periods(p);
    let mut counted = *bus;
    mark(&mut counted, connections(&p), |connection| {
        can_be_thinned(connection, &leasts).then_some(connection.consumer.0)
    });
    counted
}

pub fn counted_tasks(p: Plan, bus: &[bool; BYTES]) -> [bool; BYTES]
    requires plan_kept { PlanKept (seen p) }
    requires bus_value { bus.now ≡ by_number (is_bus_task (seen p)) }
    ensures { result ≡ by_number (gives_period (seen p)) }
{
    if p.consumers {
        with_consumers(p, bus)
    } else {
        *bus
    }
}

// The modules that hold an end of a connection (rule 21.5).
fn end_modules(p: Plan) -> [bool; BYTES]
    ensures { result ≡ by_number (holds_end (seen p)) }
{
    let homes = task_homes(p);
    let mut modules = [false; BYTES];
    mark(&mut modules, connections(&p), |connection| {
        Some(at(&homes, connection.producer.0))
    });
    mark(&mut modules, connections(&p), |connection| {
        Some(at(&homes, connection.consumer.0))
    });
    modules
}

pub fn grid_modules(p: Plan, sending: &[bool; BYTES]) -> [bool; BYTES]
    requires { sending.now ≡ by_number (is_sending (seen p)) }
    ensures { result ≡ by_number (gives_grid (seen p)) }
{
    if p.consumers {
        end_modules(p)
    } else {
        *sending
    }
}
