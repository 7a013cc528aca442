// Bus tasks, sending modules and the control payloads of nodes, in tables by number. Where the plan has no thing of a number stands what
// the rules say of it.
ghost use Rattle.std.specs.Prelude.{◌≡◌, not, ◌&&◌, ◌||◌, cond, eqb, ◌+◌, ◌<◌};
ghost use Rattle.plan.specs.Memory.{seen};
ghost use Rattle.rules.specs.Traffic.{module_node, task_node, is_bus_task, is_sending, control_payload};
ghost use Rattle.bus.specs.Senders.{by_number, task_home, invoked_by, senders_of};

use crate::BYTES;
use crate::by_number::{at, fill, mark};
use crate::lists::{connections, invocations, modules, tasks};
use plan::Plan;
use plan::look::{module_count, task_count};

// Whether each task is a bus task, whether each module sends, and the payload of each node's control frame.
#[derive(Clone, Copy)]
pub struct Senders {
    pub tasks: [bool; BYTES],
    pub modules: [bool; BYTES],
    pub payloads: [u8; BYTES],
}

fn module_nodes(p: Plan) -> [u8; BYTES]
    ensures { result ≡ by_number (module_node (seen p)) }
{
    let mut nodes = [0; BYTES];
    fill(&mut nodes, modules(&p), |module| module.node.0);
    nodes
}

pub fn task_homes(p: Plan) -> [u8; BYTES]
    ensures { result ≡ by_number (task_home (seen p)) }
{
    let mut homes = [0; BYTES];
    fill(&mut homes, tasks(&p), |task| task.home.0);
    homes
}

// Which tasks some mode invokes.
pub fn invoked(p: Plan) -> [bool; BYTES]
    ensures { result ≡ by_number (invoked_by (seen p).invocations) }
{
    let mut found = [false; BYTES];
    mark(
        &mut found,
        invocations(&p),
        |invocation| Some(invocation.task.0),
    );
    found
}

// A task that the plan does not have would be of module 0.
fn task_nodes(p: Plan, nodes: &[u8; BYTES]) -> [u8; BYTES]
    requires { nodes.now ≡ by_number (module_node (seen p)) }
    ensures { result ≡ by_number (task_node (seen p)) }
{
    let mut found = [nodes[0]; BYTES];
    fill(&mut found, tasks(&p), |task| at(nodes, task.home.0));
    found
}

pub fn nodes_of_tasks(p: Plan) -> [u8; BYTES]
    ensures { result ≡ by_number (task_node (seen p)) }
{
    task_nodes(p, &module_nodes(p))
}

// Whether a connection from a task that is invoked leaves its node.
fn leaves(invoked: bool, here: u8, there: u8) -> bool
    ensures { result ≡ (invoked && not (eqb there here)) }
{
    invoked && there != here
}

// A task that is invoked is a bus task as soon as a connection from it leaves its node.
fn bus_tasks(p: Plan, nodes: &[u8; BYTES], invoked: &[bool; BYTES]) -> [bool; BYTES]
    requires nodes_value { nodes.now ≡ by_number (task_node (seen p)) }
    requires invoked_value { invoked.now ≡ by_number (invoked_by (seen p).invocations) }
    ensures { result ≡ by_number (is_bus_task (seen p)) }
{
    let mut tasks = [false; BYTES];
    mark(&mut tasks, connections(&p), |connection| {
        let from = connection.producer.0;
        let to = connection.consumer.0;
        leaves(at(invoked, from), at(nodes, from), at(nodes, to)).then_some(from)
    });
    tasks
}

fn sending_modules(p: Plan, homes: &[u8; BYTES], tasks: &[bool; BYTES]) -> [bool; BYTES]
    requires homes_value { homes.now ≡ by_number (task_home (seen p)) }
    requires tasks_value { tasks.now ≡ by_number (is_bus_task (seen p)) }
    ensures { result ≡ by_number (is_sending (seen p)) }
{
    let mut modules = [false; BYTES];
    for t in 0..task_count(p) {
        let m = usize::from(homes[t]);
        modules[m] |= tasks[t];
    }
    modules
}

fn control_payloads(p: Plan, nodes: &[u8; BYTES], modules: &[bool; BYTES]) -> [u8; BYTES]
    requires nodes_value { nodes.now ≡ by_number (module_node (seen p)) }
    requires modules_value { modules.now ≡ by_number (is_sending (seen p)) }
    ensures { result ≡ by_number (control_payload (seen p)) }
{
    let mut payloads = [0; BYTES];
    for m in 0..module_count(p) {
        let k = usize::from(nodes[m]);
        payloads[k] += u8::from(modules[m]);
    }
    payloads
}

impl Senders {
    pub fn of(p: Plan) -> Senders
        ensures { result ≡ senders_of (seen p) }
    {
        let nodes = module_nodes(p);
        let homes = task_homes(p);
        let there = task_nodes(p, &nodes);
        let invoked = invoked(p);
        let tasks = bus_tasks(p, &there, &invoked);
        let modules = sending_modules(p, &homes, &tasks);
        let payloads = control_payloads(p, &nodes, &modules);
        Senders {
            tasks,
            modules,
            payloads,
        }
    }
}
