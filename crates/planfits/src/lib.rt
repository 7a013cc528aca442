// Refusal 5: what the things of a plan must keep among each other.
#![tactic(auto)]

ghost use Rattle.std.specs.Prelude.{◌≡◌, map, length, position, not};
ghost use Rattle.std.specs.List.{list_any};
ghost use Rattle.laws.specs.Lists.{first_bad, up_to};
ghost use Rattle.rules.specs.Plan as rules;
ghost use Rattle.places.specs.Spot.{spot_of};
ghost use Rattle.plan.specs.Memory.{seen, mode_seen, task_seen, invocation_seen, connection_seen};
ghost use Rattle.planfits.specs.Scans.{unfit_of};
ghost use Rattle.planfits.specs.Fits.{fits_these};

use figures::{divides, quotient};
use places::entry_or;
use plan::{Connection, Invocation, Mode, Plan, Task, look};
use units::ModuleNo;

#[tactic(auto, unfolding(rules::specs::Plan::is_home, plan::specs::Memory::mode_seen))]
fn has_mode(modes: &[Mode], home: ModuleNo) -> bool
    ensures { result ≡ list_any (λ x. rules.is_home home.0 (mode_seen x)) modes.now }
{
    modes.iter().any(|mode| mode.home == home)
}

// The first module without a mode.
fn first_without_mode(p: Plan) -> Option<usize>
    ensures { result ≡ spot_of (first_bad (rules.has_mode (seen p)) (up_to (length (seen p).modules))) }
{
    let modes = &p.modes[..look::mode_count(p)];
    for m in 0..look::module_count(p) {
        if !has_mode(modes, ModuleNo(m as u8)) {
            return Some(m);
        }
    }
    None
}

#[tactic(auto, unfolding(rules::specs::Plan::switch_divides, plan::specs::Memory::mode_seen))]
fn switch_divides(mode: Mode) -> bool
    ensures { result ≡ rules.switch_divides (mode_seen mode) }
{
    divides(mode.switch.0, mode.period.0)
}

// The first mode whose switch period does not divide its period.
fn first_bad_switch(modes: &[Mode]) -> Option<usize>
    ensures { result ≡ position (λ x. not (rules.switch_divides (mode_seen x))) modes.now }
{
    modes.iter().position(|mode| !switch_divides(*mode))
}

#[tactic(auto, unfolding(crate::specs::Fits::fits_these, plan::specs::Memory::mode_seen, plan::specs::Memory::task_seen))]
fn fits_its_mode(rate: u32, mode: Mode, task: Task) -> bool
    ensures { result ≡ fits_these rate (mode_seen mode) (task_seen task) }
{
    let period = quotient(mode.period.0, rate);
    divides(rate, mode.period.0)
        && divides(period, mode.switch.0)
        && task.worst.0 <= period
        && task.home == mode.home
}

#[tactic(auto, unfolding(rules::specs::Plan::same_run, plan::specs::Memory::invocation_seen))]
fn same_run(run: Invocation, other: Invocation) -> bool
    ensures { result ≡ rules.same_run (invocation_seen run) (invocation_seen other) }
{
    run.mode == other.mode && run.task == other.task
}

// The first invocation that does not fit its mode, or whose task and mode an earlier one has.
fn first_misfit(p: Plan) -> Option<usize>
    ensures { result ≡ spot_of (first_bad (rules.invocation_keeps (seen p)) (up_to (length (seen p).invocations))) }
{
    let modes = &p.modes[..look::mode_count(p)];
    let tasks = &p.tasks[..look::task_count(p)];
    let runs = &p.invocations[..look::invocation_count(p)];
    let mut repeat = None;
    'pairs: for (k, run) in runs.iter().enumerate() {
        let mode = entry_or(modes, run.mode.place(), Mode::default());
        let task = entry_or(tasks, run.task.place(), Task::default());
        if !fits_its_mode(run.rate, mode, task) {
            return Some(k);
        }
        for other in &runs[..k] {
            if same_run(*run, *other) {
                repeat = Some(k);
                break 'pairs;
            }
        }
    }
    repeat
}

#[tactic(auto, unfolding(rules::specs::Plan::is_own, plan::specs::Memory::connection_seen))]
fn is_own(connection: Connection) -> bool
    ensures { result ≡ rules.is_own (connection_seen connection) }
{
    connection.producer == connection.consumer
}

#[tactic(auto, unfolding(rules::specs::Plan::same_ends, plan::specs::Memory::connection_seen))]
fn has_same_ends(connection: Connection, earlier: &[Connection]) -> bool
    ensures { result ≡ list_any (λ x. rules.same_ends (connection_seen connection) (connection_seen x)) earlier.now }
{
    earlier.iter().any(|other| connection == *other)
}

// The first connection from a task to itself, or with the ends of an earlier one.
fn first_doubtful(p: Plan) -> Option<usize>
    ensures { result ≡ spot_of (first_bad (rules.connection_keeps (seen p).connections) (up_to (length (seen p).connections))) }
{
    let connections = &p.connections[..look::connection_count(p)];
    for (k, connection) in connections.iter().enumerate() {
        if is_own(*connection) || has_same_ends(*connection, &connections[..k]) {
            return Some(k);
        }
    }
    None
}

// The record of the first thing that breaks refusal 5's rules.
pub fn first_unfit(p: Plan) -> Option<usize>
    ensures { unfit_of result ≡ rules.rule5 (seen p) }
{
    if let Some(module) = first_without_mode(p) {
        return Some(2 + module);
    }
    let first_mode = 2 + look::module_count(p);
    let modes = look::mode_count(p);
    if let Some(mode) = first_bad_switch(&p.modes[..modes]) {
        return Some(first_mode + mode);
    }
    let tasks = look::task_count(p);
    let first_invocation = first_mode + modes + tasks;
    if let Some(run) = first_misfit(p) {
        return Some(first_invocation + run);
    }
    let runs = look::invocation_count(p);
    let first_connection = first_invocation + runs;
    if let Some(connection) = first_doubtful(p) {
        return Some(first_connection + connection);
    }
    None
}
