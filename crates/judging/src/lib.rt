// The judgement of a table: rules 21 to 28, rule by rule, at the lowest record at fault.
#![tactic(auto)]

ghost use Rattle.std.specs.Prelude.{◌≡◌, ◌&&◌, eqb, replicate, ◌+◌, ◌≤◌, ◌<◌};
ghost use Rattle.laws.specs.Lists.{first_bad, up_to};
ghost use Rattle.laws.specs.Res.{unless};
ghost use Rattle.rules.specs.Limits.{most_nodes, most_frames};
ghost use Rattle.naming.specs.Places.{Numbered, before_in};
ghost use Rattle.places.specs.Spot.{spot_of, spot_in};
ghost use Rattle.line.specs.Line.{drawing};
ghost use Rattle.table.specs.Memory.{table_with, seen};
ghost use Rattle.table.specs.Rows.{control_in};
ghost use Rattle.judging.specs.Judged.{header_same, controls_same, rows_judged, frames_in, frames_on, time_in, line_judged, judgement, Right, in_order, only_where, Among};
ghost use Rattle.answers.specs.Answered.{judged};
ghost use Rattle.datarows.specs.Rows.{release_kept};

use answers::Refusal;
use datarows::{first_crowded, first_early, first_late, first_mistimed, gap_at_end};
use line::Line;
use naming::{first_unnamed, numbers, starts_by_frame};
use table::{Header, Heading};
use units::{Frame, NodeNo, RecordNo, TaskNo, Ticks};

// What the bus asks of every row.
#[derive(Clone, Copy)]
pub struct Bounds {
    pub period: Ticks,
    pub resolution: Ticks,
    pub gap: Ticks,
}

#[tactic(auto, unfolding(crate::specs::Judged::header_same))]
fn header_right(
    head: Header,
    control: usize,
    rows: usize,
    bounds: Bounds,
    controls: usize,
    frames: usize,
) -> bool
    ensures { result ≡ header_same head control rows bounds controls frames }
{
    head.period == bounds.period
        && ((head.controls == controls && head.datas == frames)
            && (control == controls && rows == frames))
}

fn same_control(
    node: NodeNo,
    start: Ticks,
    stop: Ticks,
    fixed_node: NodeNo,
    fixed_start: Ticks,
    fixed_stop: Ticks,
) -> bool
    ensures { result ≡ (eqb node.0 fixed_node.0 && (eqb start.0 fixed_start.0 && eqb stop.0 fixed_stop.0)) }
{
    node == fixed_node && (start == fixed_start && stop == fixed_stop)
}

// The first control row that is not the fixed one.
fn first_strange<'a, 'b>(
    control_nodes: &'a [u8; NodeNo::MOST],
    control_starts: &'a [u32; NodeNo::MOST],
    control_stops: &'a [u32; NodeNo::MOST],
    fixed_nodes: &'b [u8; NodeNo::MOST],
    fixed_starts: &'b [u32; NodeNo::MOST],
    fixed_stops: &'b [u32; NodeNo::MOST],
    controls: usize,
) -> Option<usize>
    requires { controls ≤ most_nodes }
    ensures { result ≡ spot_of (first_bad (controls_same (control_in control_nodes.now control_starts.now control_stops.now) (control_in fixed_nodes.now fixed_starts.now fixed_stops.now)) (up_to controls)) }
{
    for k in 0..controls {
        if !same_control(
            NodeNo(control_nodes[k]),
            Ticks(control_starts[k]),
            Ticks(control_stops[k]),
            NodeNo(fixed_nodes[k]),
            Ticks(fixed_starts[k]),
            Ticks(fixed_stops[k]),
        ) {
            return Some(k);
        }
    }
    None
}

// The stop of the last control row.
fn last_stop(control_stops: &[u32; NodeNo::MOST], control: usize) -> Ticks
    requires { control ≤ most_nodes }
    ensures { result.0 ≡ before_in control_stops.now 0 control }
{
    if control == 0 {
        Ticks(0)
    } else {
        Ticks(control_stops[control - 1])
    }
}

// Rule 25, where it is looked at here: else no row counts as early.
fn early_in<'a>(
    early_too: bool,
    row_starts: &'a [u32; Frame::MOST],
    releases: &'a [u32; Frame::MOST],
    numbers: &'a [usize; Frame::MOST],
    rows: usize,
) -> Option<usize>
    requires { rows ≤ most_frames }
    ensures { result ≡ spot_of (only_where early_too (first_bad (release_kept row_starts.now releases.now numbers.now) (up_to rows))) }
{
    if early_too {
        first_early(row_starts, releases, numbers, rows)
    } else {
        None
    }
}

// Rule 28: `last` is the record of the last row.
fn end_judged(kept: bool, last: RecordNo) -> Result<(), Refusal>
    ensures { judged result ≡ unless 28 last.0 kept }
{
    if kept {
        Ok(())
    } else {
        Err(Refusal::NoGapAtEnd(last))
    }
}

// The record `first + k` of the first row at fault, where `first` is the first data row's; `end` where no row is.
fn rows_judged(
    first: usize,
    unnamed: Option<usize>,
    mistimed: Option<usize>,
    early: Option<usize>,
    late: Option<usize>,
    crowded: Option<usize>,
    end: Result<(), Refusal>,
) -> Result<(), Refusal>
    requires first_bound { first ≤ 1 + most_nodes }
    requires among { Among most_frames unnamed × (Among most_frames mistimed × (Among most_frames early × (Among most_frames late × Among most_frames crowded))) }
    ensures { judged result ≡ in_order first (spot_in unnamed) (spot_in mistimed) (spot_in early) (spot_in late) (spot_in crowded) (judged end) }
{
    if let Some(k) = unnamed {
        return Err(Refusal::NoNewFrame(RecordNo(first + k)));
    }
    if let Some(k) = mistimed {
        return Err(Refusal::WrongTime(RecordNo(first + k)));
    }
    if let Some(k) = early {
        return Err(Refusal::BeforeRelease(RecordNo(first + k)));
    }
    if let Some(k) = late {
        return Err(Refusal::AfterDeadline(RecordNo(first + k)));
    }
    if let Some(k) = crowded {
        return Err(Refusal::GapBroken(RecordNo(first + k)));
    }
    end
}

// Rules 23 to 28; 25 only where `early_too`. What is left in `starts` is as in `judge`.
fn by_rows<'a>(
    heading: Heading,
    row_tasks: &'a [u8; Frame::MOST],
    row_deadlines: &'a [u32; Frame::MOST],
    row_starts: &'a [u32; Frame::MOST],
    row_stops: &'a [u32; Frame::MOST],
    tasks: &'a [u8; Frame::MOST],
    releases: &'a [u32; Frame::MOST],
    deadlines: &'a [u32; Frame::MOST],
    frames: usize,
    times: &'a [u32; TaskNo::MOST],
    bounds: Bounds,
    early_too: bool,
    starts: &mut [u32; Frame::MOST],
) -> Result<(), Refusal>
    requires numbered { Numbered tasks.now deadlines.now frames }
    requires controls_le_most_nodes { heading.controls ≤ most_nodes }
    requires rows_value { heading.rows ≡ frames }
    requires starts_value { starts.old ≡ replicate most_frames 0 }
    ensures { Right early_too releases.now frames (rows_judged (frames_in tasks.now releases.now deadlines.now frames) (time_in times.now) bounds (seen (table_with heading row_tasks.now row_deadlines.now row_starts.now row_stops.now))) (frames_in tasks.now releases.now deadlines.now frames) (seen (table_with heading row_tasks.now row_deadlines.now row_starts.now row_stops.now)) (judgement result starts.new) }
{
    let rows = heading.rows;
    let mut named: [usize; Frame::MOST] = [0; Frame::MOST];
    numbers(
        tasks,
        deadlines,
        frames,
        row_tasks,
        row_deadlines,
        rows,
        &mut named,
    );
    let unnamed = first_unnamed(&named, frames, rows);
    let mistimed = first_mistimed(
        row_tasks,
        row_starts,
        row_stops,
        times,
        bounds.resolution,
        rows,
    );
    let early = early_in(early_too, row_starts, releases, &named, rows);
    let late = first_late(row_stops, row_deadlines, rows);
    let last = last_stop(&heading.control_stops, heading.controls);
    let crowded = first_crowded(row_starts, row_stops, last, bounds.gap, rows);
    let ends = gap_at_end(row_stops, last, bounds.gap, bounds.period, rows);
    let end = end_judged(ends, RecordNo(heading.controls + rows));
    starts_by_frame(&named, row_starts, rows, starts);
    rows_judged(
        1 + heading.controls,
        unnamed,
        mistimed,
        early,
        late,
        crowded,
        end,
    )
}

// A table judged by what a plan asks of the bus. Where `early_too` does not hold, rule 25 is left to the caller: the verdict is then right
// if no frame's start lies before its release. The start that the table gives to each frame is left in `starts`, by number; what stands
// there is meant only where 21 to 23 are kept.
pub fn judge<'a>(
    heading: Heading,
    row_tasks: &'a [u8; Frame::MOST],
    row_deadlines: &'a [u32; Frame::MOST],
    row_starts: &'a [u32; Frame::MOST],
    row_stops: &'a [u32; Frame::MOST],
    line: Line,
    tasks: &'a [u8; Frame::MOST],
    releases: &'a [u32; Frame::MOST],
    deadlines: &'a [u32; Frame::MOST],
    early_too: bool,
    starts: &mut [u32; Frame::MOST],
) -> Result<(), Refusal>
    requires numbered { Numbered tasks.now deadlines.now line.frames }
    requires controls_le_most_nodes { line.controls ≤ most_nodes }
    requires starts_value { starts.old ≡ replicate most_frames 0 }
    ensures { Right early_too releases.now line.frames (line_judged (drawing line tasks.now releases.now deadlines.now) (seen (table_with heading row_tasks.now row_deadlines.now row_starts.now row_stops.now))) (frames_on (drawing line tasks.now releases.now deadlines.now)) (seen (table_with heading row_tasks.now row_deadlines.now row_starts.now row_stops.now)) (judgement result starts.new) }
{
    let head = heading.header;
    let period = line.period;
    let resolution = line.resolution;
    let gap = line.gap;
    let bounds = Bounds {
        period,
        resolution,
        gap,
    };
    if !header_right(
        head,
        heading.controls,
        heading.rows,
        bounds,
        line.controls,
        line.frames,
    ) {
        return Err(Refusal::WrongHeader);
    }
    if let Some(k) = first_strange(
        &heading.control_nodes,
        &heading.control_starts,
        &heading.control_stops,
        &line.control_nodes,
        &line.control_starts,
        &line.control_stops,
        line.controls,
    ) {
        return Err(Refusal::WrongControlRow(RecordNo(1 + k)));
    }
    by_rows(
        heading,
        row_tasks,
        row_deadlines,
        row_starts,
        row_stops,
        tasks,
        releases,
        deadlines,
        line.frames,
        &line.times,
        bounds,
        early_too,
        starts,
    )
}
