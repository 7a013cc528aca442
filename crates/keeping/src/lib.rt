// What a station keeps of a plan and a table that passed, in the station's arrays: each thing at the place of its number, zeros behind.
#![tactic(auto)]

ghost use Rattle.std.specs.Prelude.{◌≡◌, cond, ◌+◌, ◌*◌, ◌^◌, ◌≤◌, ◌<◌};
ghost use Rattle.rules.specs.Traffic.{is_sending};
ghost use Rattle.rules.specs.Readers.{is_read, is_read_by};
ghost use Rattle.rules.specs.Limits.{most_frames, most_modes, most_nodes};
ghost use Rattle.rules.proofs.PlanKept.{PlanKept};
ghost use Rattle.places.specs.Bits.{bits_of};
ghost use Rattle.plan.specs.Memory.{seen};
ghost use Rattle.bus.specs.Readers.{readers_seen};
ghost use Rattle.bus.specs.Senders.{by_number};
ghost use Rattle.station.specs.Memory.{not_begun};
ghost use Rattle.keeping.specs.Keeping.{FewReaders, StopsFit, by_pair, controls_of, has_message, kept_from, modes_at, modes_of, modules_of, runs_of, stop_at, tasks_of};

use bus::readers::Readers;
use bus::senders::Senders;
use figures::divides;
use line::Line;
use places::entry_or;
use plan::look::{
    invocation_at, invocation_count, mode_at, mode_count, module_at, module_count, task_at,
    task_count,
};
use plan::{Invocation, Plan};
use station::Station;
use stationnodes::Node;
use stationrefusals::{Controls, Fixed, Modes, Modules, Play, Tasks};
use units::{Frame, ModeNo, ModuleNo, NodeNo, TaskNo, Ticks};

fn modules(p: Plan, senders: [bool; 256]) -> Modules
    requires { senders ≡ by_number (is_sending (seen p)) }
    ensures { result ≡ modules_of (seen p) }
{
    let mut sites: [u8; ModuleNo::MOST] = [0; ModuleNo::MOST];
    let mut sending: [u8; ModuleNo::MOST] = [0; ModuleNo::MOST];
    for m in 0..ModuleNo::MOST {
        let module = module_at(p, m);
        sites[m] = module.node.0;
        sending[m] = u8::from(senders[m]);
    }
    Modules {
        count: module_count(p) as u8,
        sites,
        sending,
    }
}

fn modes(p: Plan) -> Modes
    ensures { result ≡ modes_of (seen p) }
{
    let mut homes: [u8; ModeNo::MOST] = [0; ModeNo::MOST];
    let mut periods: [u32; ModeNo::MOST] = [0; ModeNo::MOST];
    let mut switches: [u32; ModeNo::MOST] = [0; ModeNo::MOST];
    for m in 0..ModeNo::MOST {
        let mode = mode_at(p, m);
        homes[m] = mode.home.0;
        periods[m] = mode.period.0;
        switches[m] = mode.switch.0;
    }
    Modes {
        count: mode_count(p) as u8,
        homes,
        periods,
        switches,
    }
}

fn tasks(p: Plan) -> Tasks
    requires { PlanKept (seen p) }
    ensures { result ≡ tasks_of (seen p) }
{
    let mut homes: [u8; TaskNo::MOST] = [0; TaskNo::MOST];
    let mut sizes: [u8; TaskNo::MOST] = [0; TaskNo::MOST];
    let mut worsts: [u32; TaskNo::MOST] = [0; TaskNo::MOST];
    for t in 0..TaskNo::MOST {
        let task = task_at(p, t);
        homes[t] = task.home.0;
        sizes[t] = task.size.0 as u8;
        worsts[t] = task.worst.0;
    }
    Tasks {
        count: task_count(p) as u8,
        homes,
        sizes,
        worsts,
    }
}

// The periods by mode and task. The last invocation is stored first, so that of two the first would count, as in the rules.
fn runs(p: Plan) -> [u32; ModeNo::MOST * TaskNo::MOST]
    requires { PlanKept (seen p) }
    ensures { result ≡ runs_of (seen p) }
{
    let mut runs: [u32; ModeNo::MOST * TaskNo::MOST] = [0; ModeNo::MOST * TaskNo::MOST];
    for left in (0..invocation_count(p)).rev() {
        let run = invocation_at(p, left);
        let mode = mode_at(p, run.mode.place());
        runs[run.mode.place() * TaskNo::MOST + run.task.place()] = mode.period.0 / run.rate;
    }
    runs
}

fn controls(line: Line) -> Controls
    requires { line.controls ≤ most_nodes }
    ensures { result ≡ controls_of line }
{
    let nodes = line.control_nodes;
    let starts = line.control_starts;
    let stops = line.control_stops;
    Controls {
        count: line.controls as u8,
        nodes,
        starts,
        stops,
    }
}

// By pair, when its row stops: the time of a message of its task behind the start.
fn stops<'a>(
    pairs: usize,
    starts: &'a [u32; Frame::MOST],
    tasks: &'a [u8; Frame::MOST],
    times: &'a [u32; TaskNo::MOST],
) -> [u32; Frame::MOST]
    requires { (pairs ≤ most_frames) × StopsFit pairs starts.now tasks.now times.now }
    ensures { result ≡ by_pair pairs (stop_at starts.now tasks.now times.now) }
{
    let mut stops: [u32; Frame::MOST] = [0; Frame::MOST];
    for q in 0..pairs {
        let start = entry_or(starts, q, 0);
        let task = entry_or(tasks, q, 0);
        let time = entry_or(times, usize::from(task), 0);
        stops[q] = start + time;
    }
    stops
}

// Whether the message of a run of this period with this deadline is read by one who reads with period `reader` (rule 21.8). Who reads as
// often as the run ends, or more often, reads every message.
fn is_read(period: u32, deadline: u32, reader: u32) -> bool
    requires { 0 < period }
    ensures { result ≡ is_read period deadline reader }
{
    if reader <= period {
        return true;
    }
    let behind = deadline % reader;
    if behind == 0 {
        return true;
    }
    reader - behind < period
}

// The same by any reader of the task; a task that has no place has none.
fn some_reader<'a>(
    counts: &'a [usize; TaskNo::MOST],
    periods: &'a [u32; TaskNo::MOST * Invocation::MOST],
    task: usize,
    period: u32,
    deadline: u32,
) -> bool
    requires { (task < 256) × (0 < period) × FewReaders counts.now }
    ensures { result ≡ is_read_by (readers_seen counts.now periods.now task) period deadline }
{
    let row = task * Invocation::MOST;
    let count = entry_or(counts, task, 0);
    for k in 0..count {
        if is_read(period, deadline, entry_or(periods, row + k, 0)) {
            return true;
        }
    }
    false
}

// A period of 0, which is none, is not divided by.
fn has_message<'a>(
    runs: &'a [u32; ModeNo::MOST * TaskNo::MOST],
    counts: &'a [usize; TaskNo::MOST],
    periods: &'a [u32; TaskNo::MOST * Invocation::MOST],
    task: usize,
    deadline: u32,
    mode: usize,
) -> bool
    requires { (task < 256) × (mode < most_modes) × FewReaders counts.now }
    ensures { result ≡ has_message runs.now counts.now periods.now task deadline mode }
{
    let period = entry_or(runs, mode * TaskNo::MOST + task, 0);
    if 0 < period {
        if divides(period, deadline) {
            return some_reader(counts, periods, task, period, deadline);
        }
    }
    false
}

fn with_bit(bits: u32, set: bool) -> u32
    requires { bits < 2 ^ 31 }
    ensures { result ≡ cond set 1 0 + 2 * bits }
{
    u32::from(set) + 2 * bits
}

// The modes that have the message of a pair, as bits, from the last mode down to the first.
fn modes_with<'a>(
    runs: &'a [u32; ModeNo::MOST * TaskNo::MOST],
    counts: &'a [usize; TaskNo::MOST],
    periods: &'a [u32; TaskNo::MOST * Invocation::MOST],
    task: usize,
    deadline: u32,
) -> u32
    requires { (task < 256) × FewReaders counts.now }
    ensures { result ≡ bits_of (has_message runs.now counts.now periods.now task deadline) most_modes }
{
    let mut bits = 0;
    for left in (0..ModeNo::MOST).rev() {
        bits = with_bit(
            bits,
            has_message(runs, counts, periods, task, deadline, left),
        );
    }
    bits
}

fn pair_modes<'a>(
    runs: &'a [u32; ModeNo::MOST * TaskNo::MOST],
    counts: &'a [usize; TaskNo::MOST],
    periods: &'a [u32; TaskNo::MOST * Invocation::MOST],
    pairs: usize,
    tasks: &'a [u8; Frame::MOST],
    deadlines: &'a [u32; Frame::MOST],
) -> [u32; Frame::MOST]
    requires { (pairs ≤ most_frames) × FewReaders counts.now }
    ensures { result ≡ by_pair pairs (modes_at runs.now counts.now periods.now tasks.now deadlines.now) }
{
    let mut modes: [u32; Frame::MOST] = [0; Frame::MOST];
    for q in 0..pairs {
        modes[q] = modes_with(
            runs,
            counts,
            periods,
            usize::from(entry_or(tasks, q, 0)),
            entry_or(deadlines, q, 0),
        );
    }
    modes
}

// The play of a station not begun, made without the rest of that station: it would be a whole one on the stack.
fn nothing_played() -> Play
    ensures { result ≡ not_begun.play }
{
    Play {
        clock: Ticks(0),
        running: [0; ModuleNo::MOST],
        ages: [0; ModuleNo::MOST],
        bytes: [0; ModuleNo::MOST],
        givens: [0; TaskNo::MOST],
        out: [0; TaskNo::MOST],
        held: [0; NodeNo::MOST * ModuleNo::MOST],
        full: [0; TaskNo::MOST],
        loads: [0; TaskNo::MOST],
    }
}

// The station with all that it keeps, and nothing played; the arrays are by pair, and `starts` are those of the table.
pub fn kept<'a>(
    p: Plan,
    line: Line,
    pair_tasks: &'a [u8; Frame::MOST],
    pair_deadlines: &'a [u32; Frame::MOST],
    starts: &'a [u32; Frame::MOST],
) -> Station
    requires plan_kept { PlanKept (seen p) }
    requires controls_le_most_nodes { (line.controls ≤ most_nodes) × (line.frames ≤ most_frames) }
    requires stops_fit { StopsFit line.frames starts.now pair_tasks.now line.times }
    ensures { result ≡ kept_from (seen p) line pair_tasks.now pair_deadlines.now starts.now }
{
    let senders = Senders::of(p);
    let sending = senders.modules;
    let runs = runs(p);
    let readers = Readers::of(p);
    let pair_stops = stops(line.frames, starts, pair_tasks, &line.times);
    let pair_modes = pair_modes(
        &runs,
        &readers.counts,
        &readers.periods,
        line.frames,
        pair_tasks,
        pair_deadlines,
    );
    let pair_tasks = *pair_tasks;
    let pair_deadlines = *pair_deadlines;
    let pair_starts = *starts;
    let period = line.period;
    Station {
        fixed: Fixed {
            modules: modules(p, sending),
            modes: modes(p),
            tasks: tasks(p),
            controls: controls(line),
            period,
            pairs: line.frames as u16,
        },
        runs,
        pair_tasks,
        pair_deadlines,
        pair_starts,
        pair_stops,
        pair_modes,
        play: nothing_played(),
        nodes: [Node::zero(); NodeNo::MOST],
    }
}
