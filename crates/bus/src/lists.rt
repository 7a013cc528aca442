// The things of a plan, each kind as a slice: of its array what is counted and has a place.
ghost use Rattle.std.specs.Prelude.{◌≡◌, map, length, ◌≤◌};
ghost use Rattle.rules.specs.Limits.{most_modules, most_modes, most_tasks, most_invocations, most_connections};
ghost use Rattle.plan.specs.Memory.{seen, module_seen, mode_seen, task_seen, invocation_seen, connection_seen};

use plan::look::{connection_count, invocation_count, mode_count, module_count, task_count};
use plan::{Connection, Invocation, Mode, Module, Plan, Task};

pub fn modules(p: &Plan) -> &[Module]
    ensures things { map module_seen result.now ≡ (seen p.now).modules }
    ensures count { (length result.now ≡ length (seen p.now).modules) × (length result.now ≤ most_modules) }
{
    &p.modules[..module_count(*p)]
}

pub fn modes(p: &Plan) -> &[Mode]
    ensures things { map mode_seen result.now ≡ (seen p.now).modes }
    ensures count { (length result.now ≡ length (seen p.now).modes) × (length result.now ≤ most_modes) }
{
    &p.modes[..mode_count(*p)]
}

pub fn tasks(p: &Plan) -> &[Task]
    ensures things { map task_seen result.now ≡ (seen p.now).tasks }
    ensures count { (length result.now ≡ length (seen p.now).tasks) × (length result.now ≤ most_tasks) }
{
    &p.tasks[..task_count(*p)]
}

pub fn invocations(p: &Plan) -> &[Invocation]
    ensures things { map invocation_seen result.now ≡ (seen p.now).invocations }
    ensures count { (length result.now ≡ length (seen p.now).invocations) × (length result.now ≤ most_invocations) }
{
    &p.invocations[..invocation_count(*p)]
}

pub fn connections(p: &Plan) -> &[Connection]
    ensures things { map connection_seen result.now ≡ (seen p.now).connections }
    ensures count { (length result.now ≡ length (seen p.now).connections) × (length result.now ≤ most_connections) }
{
    &p.connections[..connection_count(*p)]
}
