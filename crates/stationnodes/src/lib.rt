// Steps (b) and (c) on the eight nodes, by value, each with its places; one place changes at a time.
#![tactic(auto)]

ghost use Rattle.std.specs.Prelude.{◌≡◌, false, get_or, replicate, ◌<◌};
ghost use Rattle.laws.specs.Loops.{stores};
ghost use Rattle.laws.specs.Lists.{all, up_to};
ghost use Rattle.rules.specs.Limits.{most_nodes, most_tasks};
ghost use Rattle.stationbus.specs.Bus.{number_at, truth_at};
ghost use Rattle.stationnodes.specs.Nodes.{is_idle_at, landed_at, landed_rule, lands_from, lands_rule, no_node, node_at, node_rule, shown_at, shown_rule, zero_node};

use places::{entry_or, flag_at, has_bit};
use stationbus::tasks_at;
use units::{Frame, ModuleNo, NodeNo, TaskNo, Ticks};

#[repr(C)]
#[derive(Clone, Copy)]
pub struct Node {
    pub landed: [u64; TaskNo::MOST],
    pub shown: [u64; TaskNo::MOST],
}

impl Node {
    pub fn zero() -> Node
        ensures { result ≡ zero_node }
    {
        Node {
            landed: [0; TaskNo::MOST],
            shown: [0; TaskNo::MOST],
        }
    }
}

fn lands_from<'a>(
    mut lands: [bool; TaskNo::MOST],
    full: &'a [u8; TaskNo::MOST],
) -> [bool; TaskNo::MOST]
    ensures { result ≡ stores lands (lands_from (truth_at lands) full.now) most_tasks }
{
    for (t, landing) in lands.iter_mut().enumerate() {
        *landing &= flag_at(full, t);
    }
    lands
}

// (b) By task, whether a value of it lands now: a pair of it stops, and the data frame has a value of it.
pub fn lands<'a>(
    pair_tasks: &'a [u8; Frame::MOST],
    pair_stops: &'a [u32; Frame::MOST],
    pairs: usize,
    clock: Ticks,
    full: &'a [u8; TaskNo::MOST],
) -> [bool; TaskNo::MOST]
    ensures { result ≡ stores (replicate most_tasks false) (lands_rule pair_tasks.now pair_stops.now pairs clock.0 full.now) most_tasks }
{
    let stopping = tasks_at(pair_tasks, pair_stops, pairs, clock);
    lands_from(stopping, full)
}

fn landed_at<'a>(
    old: u64,
    t: usize,
    n: usize,
    lands: &'a [bool; TaskNo::MOST],
    loads: &'a [u64; TaskNo::MOST],
    homes: &'a [u8; TaskNo::MOST],
    nodes: &'a [u8; ModuleNo::MOST],
) -> u64
    requires { t < most_tasks }
    ensures { result ≡ landed_at lands.now loads.now homes.now nodes.now n t old }
{
    let home = usize::from(homes[t]);
    if lands[t] && usize::from(entry_or(nodes, home, 0)) != n {
        loads[t]
    } else {
        old
    }
}

fn landed_after<'a>(
    mut landed: [u64; TaskNo::MOST],
    n: usize,
    lands: &'a [bool; TaskNo::MOST],
    loads: &'a [u64; TaskNo::MOST],
    homes: &'a [u8; TaskNo::MOST],
    nodes: &'a [u8; ModuleNo::MOST],
) -> [u64; TaskNo::MOST]
    ensures { result ≡ stores landed (landed_rule lands.now loads.now homes.now nodes.now n landed) most_tasks }
{
    for (t, value) in landed.iter_mut().enumerate() {
        *value = landed_at(*value, t, n, lands, loads, homes, nodes);
    }
    landed
}

fn shown_at<'a>(
    old: u64,
    t: usize,
    n: usize,
    ends: &'a [bool; TaskNo::MOST],
    homes: &'a [u8; TaskNo::MOST],
    nodes: &'a [u8; ModuleNo::MOST],
    out: &'a [u64; TaskNo::MOST],
    landed: &'a [u64; TaskNo::MOST],
    held: &'a [u8; NodeNo::MOST * ModuleNo::MOST],
    due: &'a [u32; TaskNo::MOST],
) -> u64
    requires { (t < most_tasks) × (n < most_nodes) }
    ensures { result ≡ shown_at ends.now homes.now nodes.now out.now held.now due.now n (number_at landed.now) t old }
{
    if !ends[t] {
        return old;
    }
    let home = usize::from(homes[t]);
    if usize::from(entry_or(nodes, home, 0)) == n {
        return out[t];
    }
    let mode = usize::from(entry_or(held, n * ModuleNo::MOST + home, 0));
    if has_bit(due[t], mode) {
        landed[t]
    } else {
        old
    }
}

fn shown_after<'a>(
    mut shown: [u64; TaskNo::MOST],
    n: usize,
    ends: &'a [bool; TaskNo::MOST],
    homes: &'a [u8; TaskNo::MOST],
    nodes: &'a [u8; ModuleNo::MOST],
    out: &'a [u64; TaskNo::MOST],
    landed: &'a [u64; TaskNo::MOST],
    held: &'a [u8; NodeNo::MOST * ModuleNo::MOST],
    due: &'a [u32; TaskNo::MOST],
) -> [u64; TaskNo::MOST]
    requires { n < most_nodes }
    ensures { result ≡ stores shown (shown_rule ends.now homes.now nodes.now out.now held.now due.now n (number_at landed.now) shown) most_tasks }
{
    for (t, value) in shown.iter_mut().enumerate() {
        *value = shown_at(*value, t, n, ends, homes, nodes, out, landed, held, due);
    }
    shown
}

fn node_after<'a>(
    node: Node,
    n: usize,
    lands: &'a [bool; TaskNo::MOST],
    loads: &'a [u64; TaskNo::MOST],
    ends: &'a [bool; TaskNo::MOST],
    homes: &'a [u8; TaskNo::MOST],
    nodes: &'a [u8; ModuleNo::MOST],
    out: &'a [u64; TaskNo::MOST],
    held: &'a [u8; NodeNo::MOST * ModuleNo::MOST],
    due: &'a [u32; TaskNo::MOST],
) -> Node
    requires { n < most_nodes }
    ensures { result ≡ node_at lands.now loads.now ends.now homes.now nodes.now out.now held.now due.now n node }
{
    let landed = landed_after(node.landed, n, lands, loads, homes, nodes);
    let shown = shown_after(node.shown, n, ends, homes, nodes, out, &landed, held, due);
    Node { landed, shown }
}

// By the values that land, `loads` of the tasks that `lands` says; by the runs that end; and by the modes that have a message due now, `due`.
pub fn nodes_after<'a>(
    mut old: [Node; NodeNo::MOST],
    lands: &'a [bool; TaskNo::MOST],
    loads: &'a [u64; TaskNo::MOST],
    ends: &'a [bool; TaskNo::MOST],
    homes: &'a [u8; TaskNo::MOST],
    nodes: &'a [u8; ModuleNo::MOST],
    out: &'a [u64; TaskNo::MOST],
    held: &'a [u8; NodeNo::MOST * ModuleNo::MOST],
    due: &'a [u32; TaskNo::MOST],
) -> [Node; NodeNo::MOST]
    ensures { result ≡ stores old (node_rule lands.now loads.now ends.now homes.now nodes.now out.now held.now due.now old) most_nodes }
{
    for (n, node) in old.iter_mut().enumerate() {
        *node = node_after(*node, n, lands, loads, ends, homes, nodes, out, held, due);
    }
    old
}

// Whether steps (b) and (c) leave the nodes as they are: nothing lands, and no run ends.
pub fn is_idle<'a>(lands: &'a [bool; TaskNo::MOST], ends: &'a [bool; TaskNo::MOST]) -> bool
    ensures { result ≡ all (is_idle_at lands.now ends.now) (up_to most_tasks) }
{
    let mut idle = true;
    for t in 0..TaskNo::MOST {
        idle &= !lands[t] & !ends[t];
    }
    idle
}

// What a node shows of a task; 0 where there is no such place.
pub fn shown_on(nodes: [Node; NodeNo::MOST], node: NodeNo, task: TaskNo) -> u64
    ensures { result ≡ get_or (get_or nodes node.0 no_node).shown task.0 0 }
{
    match nodes.get(node.place()) {
        Some(node) => entry_or(&node.shown, task.place(), 0),
        None => 0,
    }
}
