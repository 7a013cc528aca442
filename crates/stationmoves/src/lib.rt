// What a tick makes of a station but for its nodes: the row that starts, (a), (b) of the mode bytes, (d) and (f).
#![tactic(auto)]

ghost use Rattle.std.specs.Prelude.{◌≡◌, ℕ, ◌*◌, ◌<◌, get_or};
ghost use Rattle.laws.specs.Loops.{stores};
ghost use Rattle.places.specs.Spot.{spot_in};
ghost use Rattle.rules.specs.Limits.{most_modules, most_nodes};
ghost use Rattle.stationmoves.specs.Moving.{Reads, advanced_by, control_at, data_at, held_now, play_after, said_by};

use figures::rest;
use places::entry_or;
use stationbus::{bytes_after, full_after, held_after, loads_after, row_with};
use stationrefusals::{Controls, Fixed, Play};
use stationruns::Input;
use stationsteps::{ages_after, had_after, modes_after, one_on, out_after};
use units::{Frame, ModuleNo, NodeNo, TaskNo, Ticks};

#[derive(Clone, Copy, PartialEq, Eq)]
pub struct ControlRow {
    pub node: NodeNo,
    pub start: Ticks,
    pub stop: Ticks,
}

#[derive(Clone, Copy, PartialEq, Eq)]
pub struct DataRow {
    pub task: TaskNo,
    pub deadline: Ticks,
    pub start: Ticks,
    pub stop: Ticks,
}

// The row that starts at a tick.
#[derive(Clone, Copy, PartialEq, Eq)]
pub enum StartedRow {
    Control(ControlRow),
    Data(DataRow),
}

// The row that starts, if one does, and what a tick makes of the play.
#[derive(Clone, Copy)]
pub struct Advanced {
    pub row: Option<StartedRow>,
    pub play: Play,
}

fn control_row(controls: Controls, r: usize) -> ControlRow
    ensures { result ≡ control_at controls r }
{
    ControlRow {
        node: NodeNo(entry_or(&controls.nodes, r, 0)),
        start: Ticks(entry_or(&controls.starts, r, 0)),
        stop: Ticks(entry_or(&controls.stops, r, 0)),
    }
}

fn data_row<'a>(
    pair_tasks: &'a [u8; Frame::MOST],
    pair_deadlines: &'a [u32; Frame::MOST],
    pair_starts: &'a [u32; Frame::MOST],
    pair_stops: &'a [u32; Frame::MOST],
    q: usize,
) -> DataRow
    ensures { result ≡ data_at pair_tasks.now pair_deadlines.now pair_starts.now pair_stops.now q }
{
    DataRow {
        task: TaskNo(entry_or(pair_tasks, q, 0)),
        deadline: Ticks(entry_or(pair_deadlines, q, 0)),
        start: Ticks(entry_or(pair_starts, q, 0)),
        stop: Ticks(entry_or(pair_stops, q, 0)),
    }
}

// The row that starts now: a control row, or the row that the lowest pair that starts now rides in.
fn started<'a>(
    control: Option<usize>,
    first: Option<usize>,
    controls: Controls,
    pair_tasks: &'a [u8; Frame::MOST],
    pair_deadlines: &'a [u32; Frame::MOST],
    pair_starts: &'a [u32; Frame::MOST],
    pair_stops: &'a [u32; Frame::MOST],
) -> Option<StartedRow>
    ensures { result ≡ said_by controls pair_tasks.now pair_deadlines.now pair_starts.now pair_stops.now (spot_in control) (spot_in first) }
{
    match (control, first) {
        (Some(r), _) => Some(StartedRow::Control(control_row(controls, r))),
        (None, Some(q)) => Some(StartedRow::Data(data_row(
            pair_tasks,
            pair_deadlines,
            pair_starts,
            pair_stops,
            q,
        ))),
        (None, None) => None,
    }
}

// (b) of a control frame: the mode bytes that the nodes hold, by the control row that stops now.
fn held_by(fixed: Fixed, play: Play) -> [u8; NodeNo::MOST * ModuleNo::MOST]
    ensures value { result ≡ stores play.held (held_now fixed play) (most_nodes * most_modules) }
    ensures reads { (j : ℕ) → j < most_nodes * most_modules → get_or result j 0 ≡ held_now fixed play j }
{
    let ended = row_with(
        &fixed.controls.stops,
        usize::from(fixed.controls.count),
        play.clock,
    );
    let old = play.held;
    held_after(
        old,
        ended,
        &fixed.controls.nodes,
        &fixed.modules.sending,
        &fixed.modules.sites,
        &play.bytes,
    )
}

// The play after the steps; `control` is the control row that starts now, `first` the lowest pair that starts now, at this time.
fn play_after<'a>(
    input: Input,
    fixed: Fixed,
    play: Play,
    time: Ticks,
    control: Option<usize>,
    first: Option<usize>,
    ends: &'a [bool; TaskNo::MOST],
    pair_tasks: &'a [u8; Frame::MOST],
    pair_starts: &'a [u32; Frame::MOST],
    pair_modes: &'a [u32; Frame::MOST],
) -> Play
    ensures value { result ≡ play_after input fixed play time.0 (spot_in control) (spot_in first) ends.now pair_tasks.now pair_starts.now pair_modes.now }
    ensures reads { Reads input fixed play result }
{
    let pairs = usize::from(fixed.pairs);
    let given = input.given;
    let old_out = play.out;
    let out = out_after(&input.results, given, old_out);
    let held = held_by(fixed, play);
    let changed = input.changed;
    let old_running = play.running;
    let running = modes_after(&input.modes, changed, old_running);
    let old_ages = play.ages;
    let ages = ages_after(
        &input.changed,
        old_ages,
        &play.running,
        &fixed.modes.periods,
    );
    let old_had = play.givens;
    let had = had_after(
        &input.given,
        &input.changed,
        old_had,
        ends,
        &fixed.tasks.homes,
    );
    let old_bytes = play.bytes;
    let bytes = bytes_after(
        old_bytes,
        control,
        &fixed.controls.nodes,
        &fixed.modules.sending,
        &fixed.modules.sites,
        &running,
    );
    let old_full = play.full;
    let full = full_after(
        old_full,
        first,
        pairs,
        time,
        pair_tasks,
        pair_starts,
        pair_modes,
        &fixed.tasks.homes,
        &running,
    );
    let old_loads = play.loads;
    let loads = loads_after(old_loads, first, pairs, time, pair_tasks, pair_starts, &out);
    Play {
        clock: one_on(play.clock, fixed.period),
        running,
        ages,
        bytes,
        givens: had,
        out,
        held,
        full,
        loads,
    }
}

// A tick on all but the nodes: the row that starts, and the play after it. `ends` are the runs that end now.
pub fn advance<'a>(
    input: Input,
    fixed: Fixed,
    play: Play,
    ends: &'a [bool; TaskNo::MOST],
    pair_tasks: &'a [u8; Frame::MOST],
    pair_deadlines: &'a [u32; Frame::MOST],
    pair_starts: &'a [u32; Frame::MOST],
    pair_stops: &'a [u32; Frame::MOST],
    pair_modes: &'a [u32; Frame::MOST],
) -> Advanced
    ensures value { result ≡ advanced_by input fixed play ends.now pair_tasks.now pair_deadlines.now pair_starts.now pair_stops.now pair_modes.now }
    ensures reads { Reads input fixed play result.play }
{
    let time = Ticks(rest(play.clock.0, fixed.period.0));
    let control = row_with(
        &fixed.controls.starts,
        usize::from(fixed.controls.count),
        time,
    );
    let first = row_with(pair_starts, usize::from(fixed.pairs), time);
    let row = started(
        control,
        first,
        fixed.controls,
        pair_tasks,
        pair_deadlines,
        pair_starts,
        pair_stops,
    );
    let next = play_after(
        input,
        fixed,
        play,
        time,
        control,
        first,
        ends,
        pair_tasks,
        pair_starts,
        pair_modes,
    );
    Advanced { row, play: next }
}
