// The parts of a played station, and refusals 40 to 44 of its tick.
#![tactic(auto)]

ghost use Rattle.std.specs.Prelude.{◌≡◌, ◌<◌};
ghost use Rattle.laws.specs.Lists.{all, up_to};
ghost use Rattle.answers.specs.Answered.{judged};
ghost use Rattle.rules.specs.Limits.{most_nodes};
ghost use Rattle.stationrefusals.specs.Refusing.{judged_by, kept_test, held_test, refused_by, state_test};

use answers::Refusal;
use stationjudge::{judged_changes, judged_results};
use stationruns::Input;
use units::{Frame, ModeNo, ModuleNo, NodeNo, TaskNo, Ticks};

// Of each module: the node that it is on, and whether it is sending. A flag is set where its byte is not 0.
#[repr(C)]
#[derive(Clone, Copy)]
pub struct Modules {
    pub count: u8,
    pub sites: [u8; ModuleNo::MOST],
    pub sending: [u8; ModuleNo::MOST],
}

// Of each mode: its module, its period and its switch period.
#[repr(C)]
#[derive(Clone, Copy)]
pub struct Modes {
    pub count: u8,
    pub homes: [u8; ModeNo::MOST],
    pub periods: [u32; ModeNo::MOST],
    pub switches: [u32; ModeNo::MOST],
}

// Of each task: its module, the bytes of its message and its worst time.
#[repr(C)]
#[derive(Clone, Copy)]
pub struct Tasks {
    pub count: u8,
    pub homes: [u8; TaskNo::MOST],
    pub sizes: [u8; TaskNo::MOST],
    pub worsts: [u32; TaskNo::MOST],
}

// The control rows: node, start and stop.
#[repr(C)]
#[derive(Clone, Copy)]
pub struct Controls {
    pub count: u8,
    pub nodes: [u8; NodeNo::MOST],
    pub starts: [u32; NodeNo::MOST],
    pub stops: [u32; NodeNo::MOST],
}

// What a station keeps of the plan and the table, but for the large arrays (the runs and the pairs), which are lent where they are
// read. `pairs` is the number of pairs.
#[repr(C)]
#[derive(Clone, Copy)]
pub struct Fixed {
    pub modules: Modules,
    pub modes: Modes,
    pub tasks: Tasks,
    pub controls: Controls,
    pub period: Ticks,
    pub pairs: u16,
}

// What a tick changes beside the nodes. `running` is each module's mode, `ages` the time since it began, `bytes` its mode byte on the
// bus; `givens` whether a task's run has had its result; `held` the mode bytes that the nodes hold, a place for each module, node after node; `full` and `loads`
// by task, whether the data frame on the bus has a value of it, and which.
#[repr(C)]
#[derive(Clone, Copy)]
pub struct Play {
    pub clock: Ticks,
    pub running: [u8; ModuleNo::MOST],
    pub ages: [u32; ModuleNo::MOST],
    pub bytes: [u8; ModuleNo::MOST],
    pub givens: [u8; TaskNo::MOST],
    pub out: [u64; TaskNo::MOST],
    pub held: [u8; NodeNo::MOST * ModuleNo::MOST],
    pub full: [u8; TaskNo::MOST],
    pub loads: [u64; TaskNo::MOST],
}

#[tactic(auto, unfolding(crate::specs::Refusing::kept_test))]
fn kept_in_range<'a>(
    fixed: Fixed,
    runs: &'a [u32; ModeNo::MOST * TaskNo::MOST],
    pair_tasks: &'a [u8; Frame::MOST],
    pair_deadlines: &'a [u32; Frame::MOST],
    pair_starts: &'a [u32; Frame::MOST],
    pair_stops: &'a [u32; Frame::MOST],
) -> bool
    ensures { result ≡ kept_test fixed runs.now pair_tasks.now pair_deadlines.now pair_starts.now pair_stops.now }
{
    stationrange::counts(
        fixed.modules.count,
        fixed.modes.count,
        fixed.tasks.count,
        fixed.period,
        fixed.controls.count,
    ) && stationrange::modules(&fixed.modules.sites)
        && stationrange::modes(
            fixed.modules.count,
            fixed.modes.count,
            &fixed.modes.homes,
            &fixed.modes.periods,
            &fixed.modes.switches,
        )
        && stationrange::tasks(
            fixed.modules.count,
            fixed.tasks.count,
            &fixed.tasks.homes,
            &fixed.tasks.sizes,
            &fixed.tasks.worsts,
        )
        && stationrange::runs(runs, &fixed.modes.periods)
        && stationrange::controls(
            fixed.period,
            &fixed.controls.nodes,
            &fixed.controls.starts,
            &fixed.controls.stops,
        )
        && stationrange::pairs(
            fixed.pairs,
            fixed.tasks.count,
            fixed.period,
            pair_tasks,
            pair_deadlines,
            pair_starts,
            pair_stops,
        )
}

fn bytes_in_range<'a>(held: &'a [u8; NodeNo::MOST * ModuleNo::MOST], modes: u8) -> bool
    ensures { result ≡ all (held_test held.now modes) (up_to most_nodes) }
{
    for n in 0..NodeNo::MOST {
        if !stationrange::bytes(held, modes, n) {
            return false;
        }
    }
    true
}

// But for what the nodes hold landed and shown: each of those numbers is of its type's range.
#[tactic(auto, unfolding(crate::specs::Refusing::state_test))]
fn state_in_range(fixed: Fixed, play: Play) -> bool
    ensures { result ≡ state_test fixed play }
{
    play.clock.0 <= fixed.period.0
        && stationrange::plays(
            fixed.modules.count,
            fixed.modes.count,
            &fixed.modes.homes,
            &fixed.modes.periods,
            &play.running,
            &play.ages,
            &play.bytes,
        )
        && stationrange::boxes(&play.out, &play.loads)
        && bytes_in_range(&play.held, fixed.modes.count)
}

fn judged<'a>(
    input: Input,
    fixed: Fixed,
    play: Play,
    runs: &'a [u32; ModeNo::MOST * TaskNo::MOST],
) -> Result<(), Refusal>
    ensures { judged result ≡ judged_by input fixed play runs.now }
{
    let before = judged_results(
        &input.results,
        &input.given,
        fixed.tasks.count,
        runs,
        &play.running,
        &play.ages,
        &fixed.tasks.homes,
        &play.givens,
        &fixed.tasks.sizes,
        &fixed.tasks.worsts,
    );
    judged_changes(
        before,
        &input.modes,
        &input.changed,
        fixed.modules.count,
        fixed.modes.count,
        &fixed.modes.homes,
        &fixed.modes.switches,
        &play.running,
        &play.ages,
    )
}

// Refusals 40 to 44.
#[tactic(auto, unfolding(crate::specs::Refusing::refused_by))]
pub fn refused<'a>(
    input: Input,
    fixed: Fixed,
    play: Play,
    runs: &'a [u32; ModeNo::MOST * TaskNo::MOST],
    pair_tasks: &'a [u8; Frame::MOST],
    pair_deadlines: &'a [u32; Frame::MOST],
    pair_starts: &'a [u32; Frame::MOST],
    pair_stops: &'a [u32; Frame::MOST],
) -> Result<(), Refusal>
    ensures { judged result ≡ refused_by input fixed play runs.now pair_tasks.now pair_deadlines.now pair_starts.now pair_stops.now }
{
    let kept = kept_in_range(
        fixed,
        runs,
        pair_tasks,
        pair_deadlines,
        pair_starts,
        pair_stops,
    );
    if kept && state_in_range(fixed, play) {
        judged(input, fixed, play, runs)
    } else {
        Err(Refusal::NotBegun(ModuleNo(0)))
    }
}
