// The played station: its tick, total on any station value, and what a node shows.
#![tactic(auto)]

ghost use Rattle.std.specs.Prelude.{◌≡◌, cond, replicate, List};
ghost use Rattle.rules.specs.Limits.{most_tasks};
ghost use Rattle.laws.specs.Res.{ok};
ghost use Rattle.stationnodes.specs.declared.Node.{Node as AnyNode};
ghost use Rattle.station.specs.Memory.{not_begun, ruled, state_of};
ghost use Rattle.stationrefusals.specs.Refusing.{refused_by};
ghost use Rattle.station.specs.Answers.{Answers};
ghost use Rattle.station.specs.Parts.{Completes, Valued, due_by, left_alone, nodes_by, station_by};

use answers::Refusal;
use stationbus::modes_at;
use stationmoves::{StartedRow, advance};
use stationnodes::{Node, is_idle, lands, nodes_after, shown_on};
use stationrefusals::{Controls, Fixed, Modes, Modules, Play, Tasks, refused};
use stationruns::Input;
use stationsteps::ends_now;
use units::{Frame, ModeNo, ModuleNo, NodeNo, TaskNo, Ticks};

// `runs` has the period of each task in each mode, a place for each task, mode after mode. By pair number: `pair_tasks` and `pair_deadlines`,
// `pair_starts` and `pair_stops` of the row that the pair rides in, and `pair_modes`, whose bits are the modes that have its message. The
// arrays of numbers are lent to the steps.
#[repr(C)]
#[derive(Clone, Copy)]
pub struct Station {
    pub fixed: Fixed,
    pub runs: [u32; ModeNo::MOST * TaskNo::MOST],
    pub pair_tasks: [u8; Frame::MOST],
    pub pair_deadlines: [u32; Frame::MOST],
    pub pair_starts: [u32; Frame::MOST],
    pub pair_stops: [u32; Frame::MOST],
    pub pair_modes: [u32; Frame::MOST],
    pub play: Play,
    pub nodes: [Node; NodeNo::MOST],
}

// What a tick says, a refusal or the row that starts, and the station after it. The station stands first: behind what is said there is a gap of
// four bytes, and with that in the midst a tick cleared and copied a whole station once more.
#[derive(Clone, Copy)]
pub struct Ticked {
    pub station: Station,
    pub said: Result<Option<StartedRow>, Refusal>,
}

// What a tick makes of all but the nodes. Where it is not `idle` the nodes change, by task: a value `lands`, which is that of `loads`, as
// they were before the tick; `due` are the modes that have a message with this deadline; a run `ends`.
#[derive(Clone, Copy)]
pub struct BeforeNodes {
    pub play: Play,
    pub idle: bool,
    pub lands: [bool; TaskNo::MOST],
    pub loads: [u64; TaskNo::MOST],
    pub due: [u32; TaskNo::MOST],
    pub ends: [bool; TaskNo::MOST],
}

// What a tick says, and its part before the nodes.
#[derive(Clone, Copy)]
pub struct TickBeforeNodes {
    pub said: Result<Option<StartedRow>, Refusal>,
    pub part: BeforeNodes,
}

// The part of a refused tick: all is as it was.
fn left_alone(play: Play) -> BeforeNodes
    ensures { result ≡ left_alone play }
{
    let loads = play.loads;
    BeforeNodes {
        play,
        idle: true,
        lands: [false; TaskNo::MOST],
        loads,
        due: [0; TaskNo::MOST],
        ends: [false; TaskNo::MOST],
    }
}

// By task the modes that have a message with this deadline; an idle tick does not ask for them.
fn due_now<'a>(
    idle: bool,
    pairs: usize,
    clock: Ticks,
    pair_tasks: &'a [u8; Frame::MOST],
    pair_deadlines: &'a [u32; Frame::MOST],
    pair_modes: &'a [u32; Frame::MOST],
) -> [u32; TaskNo::MOST]
    ensures { result ≡ cond idle (replicate most_tasks 0) (due_by pair_tasks.now pair_deadlines.now pair_modes.now pairs clock.0) }
{
    if idle {
        [0; TaskNo::MOST]
    } else {
        modes_at(pair_tasks, pair_deadlines, pair_modes, pairs, clock)
    }
}

// A tick that is not refused, but for the nodes: (a) to (f).
fn accepted<'a>(
    input: Input,
    fixed: Fixed,
    play: Play,
    runs: &'a [u32; ModeNo::MOST * TaskNo::MOST],
    pair_tasks: &'a [u8; Frame::MOST],
    pair_deadlines: &'a [u32; Frame::MOST],
    pair_starts: &'a [u32; Frame::MOST],
    pair_stops: &'a [u32; Frame::MOST],
    pair_modes: &'a [u32; Frame::MOST],
) -> TickBeforeNodes
    requires { ok tt ≡ refused_by input fixed play runs.now pair_tasks.now pair_deadlines.now pair_starts.now pair_stops.now }
    ensures { (nodes : List AnyNode) → Valued nodes → Completes (station_by fixed runs.now pair_tasks.now pair_deadlines.now pair_starts.now pair_stops.now pair_modes.now play nodes) input result.said result.part }
{
    let ends = ends_now(runs, &play.running, &play.ages, &fixed.tasks.homes);
    let next = advance(
        input,
        fixed,
        play,
        &ends,
        pair_tasks,
        pair_deadlines,
        pair_starts,
        pair_stops,
        pair_modes,
    );
    let pairs = usize::from(fixed.pairs);
    let landing = lands(pair_tasks, pair_stops, pairs, play.clock, &play.full);
    let idle = is_idle(&landing, &ends);
    let due = due_now(
        idle,
        pairs,
        play.clock,
        pair_tasks,
        pair_deadlines,
        pair_modes,
    );
    let row = next.row;
    let after = next.play;
    TickBeforeNodes {
        said: Ok(row),
        part: BeforeNodes {
            play: after,
            idle,
            lands: landing,
            loads: play.loads,
            due,
            ends,
        },
    }
}

// A tick but for the nodes: a refusal, or (a) to (f). The station may hold any nodes.
pub fn tick_before_nodes<'a>(
    input: Input,
    fixed: Fixed,
    play: Play,
    runs: &'a [u32; ModeNo::MOST * TaskNo::MOST],
    pair_tasks: &'a [u8; Frame::MOST],
    pair_deadlines: &'a [u32; Frame::MOST],
    pair_starts: &'a [u32; Frame::MOST],
    pair_stops: &'a [u32; Frame::MOST],
    pair_modes: &'a [u32; Frame::MOST],
) -> TickBeforeNodes
    ensures { (nodes : List AnyNode) → Valued nodes → Completes (station_by fixed runs.now pair_tasks.now pair_deadlines.now pair_starts.now pair_stops.now pair_modes.now play nodes) input result.said result.part }
{
    match refused(
        input,
        fixed,
        play,
        runs,
        pair_tasks,
        pair_deadlines,
        pair_starts,
        pair_stops,
    ) {
        Err(why) => TickBeforeNodes {
            said: Err(why),
            part: left_alone(play),
        },
        Ok(()) => accepted(
            input,
            fixed,
            play,
            runs,
            pair_tasks,
            pair_deadlines,
            pair_starts,
            pair_stops,
            pair_modes,
        ),
    }
}

// Steps (b) and (c) on the nodes, behind the part of the tick before them.
pub fn nodes_after_tick(
    nodes: [Node; NodeNo::MOST],
    fixed: Fixed,
    part: BeforeNodes,
) -> [Node; NodeNo::MOST]
    ensures { result ≡ nodes_by fixed part nodes }
{
    nodes_after(
        nodes,
        &part.lands,
        &part.loads,
        &part.ends,
        &fixed.tasks.homes,
        &fixed.modules.sites,
        &part.play.out,
        &part.play.held,
        &part.due,
    )
}

impl Station {
    // A station not begun, all zero, whose every tick gives 40 at 0.
    pub fn not_begun() -> Station
        ensures { result ≡ not_begun }
    {
        Station {
            fixed: Fixed {
                modules: Modules {
                    count: 0,
                    sites: [0; ModuleNo::MOST],
                    sending: [0; ModuleNo::MOST],
                },
                modes: Modes {
                    count: 0,
                    homes: [0; ModeNo::MOST],
                    periods: [0; ModeNo::MOST],
                    switches: [0; ModeNo::MOST],
                },
                tasks: Tasks {
                    count: 0,
                    homes: [0; TaskNo::MOST],
                    sizes: [0; TaskNo::MOST],
                    worsts: [0; TaskNo::MOST],
                },
                controls: Controls {
                    count: 0,
                    nodes: [0; NodeNo::MOST],
                    starts: [0; NodeNo::MOST],
                    stops: [0; NodeNo::MOST],
                },
                period: Ticks(0),
                pairs: 0,
            },
            runs: [0; ModeNo::MOST * TaskNo::MOST],
            pair_tasks: [0; Frame::MOST],
            pair_deadlines: [0; Frame::MOST],
            pair_starts: [0; Frame::MOST],
            pair_stops: [0; Frame::MOST],
            pair_modes: [0; Frame::MOST],
            play: Play {
                clock: Ticks(0),
                running: [0; ModuleNo::MOST],
                ages: [0; ModuleNo::MOST],
                bytes: [0; ModuleNo::MOST],
                givens: [0; TaskNo::MOST],
                out: [0; TaskNo::MOST],
                held: [0; NodeNo::MOST * ModuleNo::MOST],
                full: [0; TaskNo::MOST],
                loads: [0; TaskNo::MOST],
            },
            nodes: [Node::zero(); NodeNo::MOST],
        }
    }

    // A tick: (a) to (f), or a refusal that leaves the station as it was.
    pub fn tick(mut self, input: Input) -> Ticked
        ensures { Answers self (ruled self input) result }
    {
        let fixed = self.fixed;
        let play = self.play;
        let first = tick_before_nodes(
            input,
            fixed,
            play,
            &self.runs,
            &self.pair_tasks,
            &self.pair_deadlines,
            &self.pair_starts,
            &self.pair_stops,
            &self.pair_modes,
        );
        let part = first.part;
        if !part.idle {
            let nodes = self.nodes;
            let shown = nodes_after_tick(nodes, fixed, part);
            self.nodes = shown;
        }
        let after = part.play;
        self.play = after;
        let said = first.said;
        Ticked {
            said,
            station: self,
        }
    }

    // What a node shows of a task; 0 where there is no such place.
    pub fn shown(self, node: NodeNo, task: TaskNo) -> u64
        ensures { result ≡ (state_of self).shown node.0 task.0 }
    {
        let nodes = self.nodes;
        shown_on(nodes, node, task)
    }
}
