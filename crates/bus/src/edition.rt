// A plan in an edition: in the consumer edition only the connections left are in it (rule 21.2).
ghost use Rattle.std.specs.Prelude.{◌≡◌, true, not, ◌&&◌, eqb};
ghost use Rattle.laws.specs.Lists.{keep};
ghost use Rattle.plan.specs.Memory.{seen, lay_out};
ghost use Rattle.rules.specs.Traffic.{task_node, is_left, plan_in};
ghost use Rattle.bus.specs.Senders.{by_number, invoked_by};
ghost use Rattle.bus.specs.Edition.{left_laid};

use crate::BYTES;
use crate::lists::connections;
use crate::senders::{invoked, nodes_of_tasks};
use plan::{Connection, Plan};

#[derive(Clone, Copy)]
struct Left {
    count: usize,
    connections: [Connection; Connection::MOST],
}

fn is_left(here: u8, there: u8, sent: bool, read: bool) -> bool
    ensures { result ≡ (not (eqb there here) && (sent && read)) }
{
    there != here && sent && read
}

fn connections_left(p: Plan, nodes: [u8; BYTES], invoked: [bool; BYTES]) -> Left
    requires nodes_value { nodes ≡ by_number (task_node (seen p)) }
    requires invoked_value { invoked ≡ by_number (invoked_by (seen p).invocations) }
    ensures { result ≡ left_laid (keep (is_left (seen p)) (seen p).connections) }
{
    let mut left = [Connection::default(); Connection::MOST];
    let mut count = 0;
    for connection in connections(&p) {
        let t = usize::from(connection.producer.0);
        let u = usize::from(connection.consumer.0);
        if is_left(nodes[t], nodes[u], invoked[t], invoked[u]) {
            left[count] = *connection;
            count += 1;
        }
    }
    Left {
        count,
        connections: left,
    }
}

fn for_consumers(p: Plan) -> Plan
    requires { p ≡ lay_out (seen p) }
    ensures { result ≡ lay_out (plan_in true (seen p)) }
{
    let left = connections_left(p, nodes_of_tasks(p), invoked(p));
    let connections = left.connections;
    let mut plan = p;
    plan.counts[7] = left.count;
    plan.connections = connections;
    plan.consumers = true;
    plan
}

pub fn in_edition(p: Plan, consumers: bool) -> Plan
    requires { p ≡ lay_out (seen p) }
    ensures { result ≡ lay_out (plan_in consumers (seen p)) }
{
    if consumers { for_consumers(p) } else { p }
}
