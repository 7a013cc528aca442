// What a plan asks of the bus: the cycle, the sending times by task and the control rows in a line, the frames by number in arrays that are
// lent, zeros before. Of a plan that is refused there is no line, and the arrays are zeros again.
#![tactic(auto)]

ghost use Rattle.std.specs.Prelude.{◌≡◌, true, Err, length, replicate, ◌≤◌, ◌<◌, ◌^◌};
ghost use Rattle.rules.specs.Limits.{longest_time, most_frames, most_invocations};
ghost use Rattle.rules.proofs.PlanKept.{PlanKept};
ghost use Rattle.plan.specs.Memory.{seen};
ghost use Rattle.planrules.specs.Reading.{Reads};
ghost use Rattle.rules.specs.Traffic.{read_in, is_bus_task, is_sending, bus_runs, period_of_runs, traffic};
ghost use Rattle.rules.proofs.ReadersGo.{InEdition};
ghost use Rattle.rules.specs.Frames.{some_bus_task, control_end, control_rows, layout};
ghost use Rattle.std.specs.Int.{◌∣◌};
ghost use Rattle.bus.specs.Runs.{runs_laid, runs_seen};
ghost use Rattle.rules.specs.Frames as rules;
ghost use Rattle.bus.specs.Senders.{by_number, senders_of};
ghost use Rattle.control.specs.Control.{control_laid};
ghost use Rattle.line.specs.Line.{no_line, line_of, line_in};
ghost use Rattle.line.specs.Laying.{Closes, Lays, laid, framing, closing, file_laid};

use answers::Refusal;
use bus::BYTES;
use bus::edition::in_edition;
use bus::marks::{counted_tasks, grid_modules};
use bus::period::{bus_period, period_divides, switch_grid};
use bus::readers::Readers;
use bus::runs::Runs;
use bus::senders::Senders;
use control::{Control, control_end, control_rows};
use figures::divides;
use frames::laid::lay;
use payloads::{controls_fit, message_times, messages_fit, some_bus_task};
use plan::Plan;
use plan::look::task_count;
use records::kinds::head_kind;
use times::{Span, gap_time};
use units::{Frame, NodeNo, TaskNo, Ticks};

// `floor` is C; `times` is by task; of the control rows there are `controls`, zeros behind; of the frames, which stand in arrays apart,
// `frames`.
#[derive(Clone, Copy)]
pub struct Line {
    pub period: Ticks,
    pub resolution: Ticks,
    pub gap: Ticks,
    pub floor: Ticks,
    pub times: [u32; TaskNo::MOST],
    pub controls: usize,
    pub control_nodes: [u8; NodeNo::MOST],
    pub control_starts: [u32; NodeNo::MOST],
    pub control_stops: [u32; NodeNo::MOST],
    pub frames: usize,
    pub head: u8,
}

impl Line {
    pub fn none() -> Line
        ensures { result ≡ line_in no_line }
    {
        Line {
            period: Ticks(0),
            resolution: Ticks(0),
            gap: Ticks(0),
            floor: Ticks(0),
            times: [0; TaskNo::MOST],
            controls: 0,
            control_nodes: [0; NodeNo::MOST],
            control_starts: [0; NodeNo::MOST],
            control_stops: [0; NodeNo::MOST],
            frames: 0,
            head: 0,
        }
    }
}

// Refuses a plan whose frames were laid: they are taken back.
fn taken_back(
    why: Refusal,
    tasks: &mut [u8; Frame::MOST],
    releases: &mut [u32; Frame::MOST],
    deadlines: &mut [u32; Frame::MOST],
) -> Result<Line, Refusal>
    ensures value { result ≡ Err why }
    ensures tasks_after { (tasks.new ≡ replicate most_frames 0) × (releases.new ≡ replicate most_frames 0) × (deadlines.new ≡ replicate most_frames 0) }
{
    *tasks = [0; Frame::MOST];
    *releases = [0; Frame::MOST];
    *deadlines = [0; Frame::MOST];
    Err(why)
}

// The line of a plan that passed refusals 1 to 11.
fn line_of(p: Plan, period: Ticks, end: Span, control: Control, count: usize) -> Line
    requires plan_kept { PlanKept (seen p) }
    requires period_value { (period.0 ≡ (traffic (seen p)).period) × (end.0 ≡ control_end (seen p)) × (end.0 < 2 ^ 32) }
    requires control_value { control ≡ control_laid (control_rows (seen p)) }
    requires count_value { count ≡ length (rules.pairs (seen p)) }
    ensures { result ≡ line_in (line_of (seen p)) }
{
    let bus = p.bus;
    let resolution = bus.resolution;
    let gap = gap_time(bus).0 as u32;
    let time = message_times(p);
    let nodes = control.nodes;
    let starts = control.starts;
    let stops = control.stops;
    Line {
        period,
        resolution,
        gap: Ticks(gap),
        floor: Ticks(end.0 as u32),
        times: time,
        controls: control.count,
        control_nodes: nodes,
        control_starts: starts,
        control_stops: stops,
        frames: count,
        head: head_kind(p.consumers),
    }
}

// Refusals 10 and 11 of a plan to which 6 to 9 do not apply, and its line.
fn closed(p: Plan, senders: Senders, period: Ticks, count: usize) -> Result<Line, Refusal>
    requires plan_kept { PlanKept (seen p) }
    requires senders_value { senders ≡ senders_of (seen p) }
    requires period_value { (period.0 ≡ (traffic (seen p)).period) × (period.0 ≤ longest_time) }
    requires count_value { count ≡ length (rules.pairs (seen p)) }
    requires p_value { layout (seen p) ≡ closing (seen p) }
    ensures { Closes result (laid (seen p)) }
{
    let tasks = senders.tasks;
    let payloads = senders.payloads;
    if !messages_fit(p, tasks) {
        return Err(Refusal::PayloadTooLarge);
    }
    let bus = p.bus;
    if !controls_fit(payloads, p.counts[2], bus.most) {
        return Err(Refusal::PayloadTooLarge);
    }
    let end = control_end(p, payloads);
    if u64::from(period.0) < end.0 {
        return Err(Refusal::ControlTooLong);
    }
    let control = control_rows(p, payloads);
    Ok(line_of(p, period, end, control, count))
}

// Refusals 9 to 11 of a plan to which 6 to 8 do not apply, its frames and its line.
fn framed(
    p: Plan,
    senders: Senders,
    runs: Runs,
    period: Ticks,
    tasks: &mut [u8; Frame::MOST],
    releases: &mut [u32; Frame::MOST],
    deadlines: &mut [u32; Frame::MOST],
) -> Result<Line, Refusal>
    requires plan_kept { PlanKept (seen p) × InEdition (seen p) }
    requires p_value { (some_bus_task (seen p) ≡ true) × ((traffic (seen p)).period ∣ (traffic (seen p)).grid) }
    requires senders_value { (senders ≡ senders_of (seen p)) × (runs ≡ runs_laid (bus_runs (seen p))) × (period.0 ≡ (traffic (seen p)).period) }
    requires p_value_2 { layout (seen p) ≡ framing (seen p) }
    requires tasks_value { (tasks.old ≡ replicate most_frames 0) × (releases.old ≡ replicate most_frames 0) × (deadlines.old ≡ replicate most_frames 0) }
    ensures { Lays result tasks.new releases.new deadlines.new (laid (seen p)) }
{
    let readers = Readers::of(p);
    let count = lay(
        runs,
        &readers.counts,
        &readers.periods,
        period,
        tasks,
        releases,
        deadlines,
    );
    if Frame::MOST < count {
        return taken_back(Refusal::TooManyFrames, tasks, releases, deadlines);
    }
    let laid = closed(p, senders, period, count);
    match laid {
        Ok(_) => laid,
        Err(why) => taken_back(why, tasks, releases, deadlines),
    }
}

// The runs whose periods P takes in.
fn counted_runs(p: Plan, bus_tasks: [bool; BYTES]) -> Runs
    requires { PlanKept (seen p) × (bus_tasks ≡ by_number (is_bus_task (seen p))) }
    ensures { (result.count ≤ most_invocations) × (period_of_runs (runs_seen result) ≡ (traffic (seen p)).period) }
{
    let counted = counted_tasks(p, &bus_tasks);
    Runs::of(p, counted)
}

// The grid of mode changes.
fn grid_of(p: Plan, modules: [bool; BYTES]) -> Ticks
    requires { PlanKept (seen p) × (modules ≡ by_number (is_sending (seen p))) }
    ensures { result.0 ≡ (traffic (seen p)).grid }
{
    let taken = grid_modules(p, &modules);
    switch_grid(p, taken)
}

// Refusals 6 to 11 of a plan that was read, its frames and its line. P is not computed before each period was tried against the grid.
pub fn of_plan(
    p: Plan,
    tasks: &mut [u8; Frame::MOST],
    releases: &mut [u32; Frame::MOST],
    deadlines: &mut [u32; Frame::MOST],
) -> Result<Line, Refusal>
    requires plan_kept { PlanKept (seen p) × InEdition (seen p) }
    requires tasks_value { (tasks.old ≡ replicate most_frames 0) × (releases.old ≡ replicate most_frames 0) × (deadlines.old ≡ replicate most_frames 0) }
    ensures { Lays result tasks.new releases.new deadlines.new (laid (seen p)) }
{
    let senders = Senders::of(p);
    let bus_tasks = senders.tasks;
    let modules = senders.modules;
    if !some_bus_task(bus_tasks, task_count(p)) {
        return Err(Refusal::NoBusTask);
    }
    let counted = counted_runs(p, bus_tasks);
    let grid = grid_of(p, modules);
    if !period_divides(counted, grid) {
        return Err(Refusal::PeriodDoesNotDivide);
    }
    let period = bus_period(counted, grid);
    if !divides(p.bus.resolution.0, period.0) {
        return Err(Refusal::PeriodOffResolution);
    }
    let runs = Runs::of(p, bus_tasks);
    framed(p, senders, runs, period, tasks, releases, deadlines)
}

// The plan of a file in an edition, or the first refusal of 1 to 5 that applies, at its lowest place.
pub fn read_in(s: &[u8], consumers: bool) -> Result<Plan, Refusal>
    ensures { Reads result (read_in consumers s.now) }
{
    let plan = planrules::read(s)?;
    Ok(in_edition(plan, consumers))
}

// The frames and the line of a plan file in an edition, or the first refusal of 1 to 11 that applies, at its lowest place.
pub fn lay_out(
    s: &[u8],
    consumers: bool,
    tasks: &mut [u8; Frame::MOST],
    releases: &mut [u32; Frame::MOST],
    deadlines: &mut [u32; Frame::MOST],
) -> Result<Line, Refusal>
    requires { (tasks.old ≡ replicate most_frames 0) × (releases.old ≡ replicate most_frames 0) × (deadlines.old ≡ replicate most_frames 0) }
    ensures { Lays result tasks.new releases.new deadlines.new (file_laid consumers s.now) }
{
    let plan = read_in(s, consumers)?;
    of_plan(plan, tasks, releases, deadlines)
}
