// Refusal 40 of a tick: each number that a station holds is within its range. The arrays are lent, and no scan ends early, so that each
// is one straight pass.
#![tactic(auto)]

ghost use Rattle.std.specs.Prelude.{◌≡◌, ◌&&◌, ◌||◌, ◌<◌, leb, ltb};
ghost use Rattle.laws.specs.Lists.{all, up_to};
ghost use Rattle.rules.specs.Limits.{most_modes, most_modules, most_nodes, most_tasks};
ghost use Rattle.rules.specs.StationRange.{is_between, is_value};
ghost use Rattle.stationrange.specs.Ranges.{box_test, byte_test, control_test, counts_test, mode_test, module_test, pairs_test, play_test, run_test, runs_test, task_test, thing_test};

use places::entry_or;
use plan::Task;
use units::{Frame, ModeNo, ModuleNo, NodeNo, TaskNo, Ticks};

#[tactic(auto, unfolding(rules::specs::StationRange::is_between))]
fn is_between(low: usize, high: usize, x: usize) -> bool
    ensures { result ≡ is_between low high x }
{
    low <= x && x <= high
}

pub fn counts(modules: u8, modes: u8, tasks: u8, period: Ticks, controls: u8) -> bool
    ensures { result ≡ counts_test modules modes tasks period.0 controls }
{
    is_between(1, ModuleNo::MOST, usize::from(modules))
        && is_between(1, ModeNo::MOST, usize::from(modes))
        && is_between(1, TaskNo::MOST, usize::from(tasks))
        && is_between(1, Ticks::LONGEST as usize, period.0 as usize)
        && usize::from(controls) <= NodeNo::MOST
}

pub fn modules<'a>(nodes: &'a [u8; ModuleNo::MOST]) -> bool
    ensures { result ≡ all (module_test nodes.now) (up_to most_modules) }
{
    let mut good = true;
    for node in nodes {
        good &= usize::from(*node) < NodeNo::MOST;
    }
    good
}

// A mode or a task: the module that it is of, its period or its bytes, of which `most` are allowed, and its other time.
fn thing(modules: u8, most: u32, there: bool, home: ModuleNo, a: u32, b: Ticks) -> bool
    ensures { result ≡ thing_test modules most there home.0 a b.0 }
{
    (home.0 < modules) & (a <= most) & (b.0 <= Ticks::LONGEST) & (!there | ((0 < a) & (0 < b.0)))
}

pub fn modes<'a>(
    modules: u8,
    modes: u8,
    homes: &'a [u8; ModeNo::MOST],
    periods: &'a [u32; ModeNo::MOST],
    switches: &'a [u32; ModeNo::MOST],
) -> bool
    ensures { result ≡ all (mode_test modules modes homes.now periods.now switches.now) (up_to most_modes) }
{
    let mut good = true;
    for mode in 0..ModeNo::MOST {
        good &= thing(
            modules,
            Ticks::LONGEST,
            mode < usize::from(modes),
            ModuleNo(homes[mode]),
            periods[mode],
            Ticks(switches[mode]),
        );
    }
    good
}

pub fn tasks<'a>(
    modules: u8,
    tasks: u8,
    homes: &'a [u8; TaskNo::MOST],
    sizes: &'a [u8; TaskNo::MOST],
    worsts: &'a [u32; TaskNo::MOST],
) -> bool
    ensures { result ≡ all (task_test modules tasks homes.now sizes.now worsts.now) (up_to most_tasks) }
{
    let mut good = true;
    for t in 0..TaskNo::MOST {
        good &= thing(
            modules,
            Task::LARGEST,
            t < usize::from(tasks),
            ModuleNo(homes[t]),
            u32::from(sizes[t]),
            Ticks(worsts[t]),
        );
    }
    good
}

fn runs_of<'a>(runs: &'a [u32; ModeNo::MOST * TaskNo::MOST], mode: usize, period: Ticks) -> bool
    requires { mode < most_modes }
    ensures { result ≡ all (run_test runs.now mode period.0) (up_to most_tasks) }
{
    let mut good = true;
    for t in 0..TaskNo::MOST {
        good &= runs[mode * TaskNo::MOST + t] <= period.0;
    }
    good
}

pub fn runs<'a>(
    runs: &'a [u32; ModeNo::MOST * TaskNo::MOST],
    periods: &'a [u32; ModeNo::MOST],
) -> bool
    ensures { result ≡ all (runs_test runs.now periods.now) (up_to most_modes) }
{
    let mut good = true;
    for (mode, period) in periods.iter().enumerate() {
        good &= runs_of(runs, mode, Ticks(*period));
    }
    good
}

fn control_row(period: Ticks, node: NodeNo, start: Ticks, stop: Ticks) -> bool
    ensures { result ≡ (ltb node.0 most_nodes && (leb start.0 period.0 && leb stop.0 period.0)) }
{
    (node.place() < NodeNo::MOST) & (start <= period) & (stop <= period)
}

pub fn controls<'a>(
    period: Ticks,
    nodes: &'a [u8; NodeNo::MOST],
    starts: &'a [u32; NodeNo::MOST],
    stops: &'a [u32; NodeNo::MOST],
) -> bool
    ensures { result ≡ all (control_test period.0 nodes.now starts.now stops.now) (up_to most_nodes) }
{
    let mut good = true;
    for row in 0..NodeNo::MOST {
        good &= control_row(
            period,
            NodeNo(nodes[row]),
            Ticks(starts[row]),
            Ticks(stops[row]),
        );
    }
    good
}

fn pair(tasks: u8, period: Ticks, task: TaskNo, deadline: Ticks, start: Ticks, stop: Ticks) -> bool
    ensures { result ≡ ((ltb task.0 tasks && leb deadline.0 period.0) && (leb start.0 period.0 && leb stop.0 period.0)) }
{
    (task.0 < tasks) & (deadline <= period) & (start <= period) & (stop <= period)
}

// The places behind the pairs are not looked at: most stations have few pairs, and places for many.
pub fn pairs<'a>(
    pairs: u16,
    tasks: u8,
    period: Ticks,
    pair_tasks: &'a [u8; Frame::MOST],
    pair_deadlines: &'a [u32; Frame::MOST],
    pair_starts: &'a [u32; Frame::MOST],
    pair_stops: &'a [u32; Frame::MOST],
) -> bool
    ensures { result ≡ pairs_test pairs tasks period.0 pair_tasks.now pair_deadlines.now pair_starts.now pair_stops.now }
{
    let count = usize::from(pairs);
    if Frame::MOST < count {
        return false;
    }
    let mut good = true;
    for q in 0..count {
        good &= pair(
            tasks,
            period,
            TaskNo(pair_tasks[q]),
            Ticks(pair_deadlines[q]),
            Ticks(pair_starts[q]),
            Ticks(pair_stops[q]),
        );
    }
    good
}

// A module's running mode: one of its own, with an age within its period; and its mode byte.
fn play(own: bool, modes: u8, mode: ModeNo, age: Ticks, period: Ticks, byte: ModeNo) -> bool
    ensures { result ≡ ((ltb mode.0 modes && own) && (leb age.0 period.0 && ltb byte.0 modes)) }
{
    (mode.0 < modes) & own & (age <= period) & (byte.0 < modes)
}

pub fn plays<'a>(
    modules: u8,
    modes: u8,
    homes: &'a [u8; ModeNo::MOST],
    periods: &'a [u32; ModeNo::MOST],
    running: &'a [u8; ModuleNo::MOST],
    ages: &'a [u32; ModuleNo::MOST],
    bytes: &'a [u8; ModuleNo::MOST],
) -> bool
    ensures { result ≡ all (play_test modules modes homes.now periods.now running.now ages.now bytes.now) (up_to most_modules) }
{
    let mut good = true;
    for m in 0..ModuleNo::MOST {
        let mode = ModeNo(running[m]);
        let home = ModuleNo(entry_or(homes, mode.place(), 0));
        let period = Ticks(entry_or(periods, mode.place(), 0));
        let there = m < usize::from(modules);
        let own = !there | (home.place() == m);
        good &= play(own, modes, mode, Ticks(ages[m]), period, ModeNo(bytes[m]));
    }
    good
}

#[tactic(auto, unfolding(rules::specs::StationRange::is_value))]
fn is_value(v: u64) -> bool
    ensures { result ≡ is_value v }
{
    v <= u64::MAX
}

// The out-boxes, and the values on the bus.
pub fn boxes<'a>(out: &'a [u64; TaskNo::MOST], loads: &'a [u64; TaskNo::MOST]) -> bool
    ensures { result ≡ all (box_test out.now loads.now) (up_to most_tasks) }
{
    let mut good = true;
    for t in 0..TaskNo::MOST {
        good &= is_value(out[t]) & is_value(loads[t]);
    }
    good
}

pub fn bytes<'a>(held: &'a [u8; NodeNo::MOST * ModuleNo::MOST], modes: u8, node: usize) -> bool
    requires { node < most_nodes }
    ensures { result ≡ all (byte_test held.now modes node) (up_to most_modules) }
{
    let mut good = true;
    for m in 0..ModuleNo::MOST {
        good &= held[node * ModuleNo::MOST + m] < modes;
    }
    good
}
