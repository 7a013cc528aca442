// Refusals 41 to 44 of a tick, on lent arrays.
#![tactic(auto)]

ghost use Rattle.std.specs.Prelude.{◌≡◌, ◌<◌};
ghost use Rattle.laws.specs.Lists.{first_bad, up_to};
ghost use Rattle.rules.specs.Limits.{most_modules, most_tasks};
ghost use Rattle.places.specs.Spot.{spot_in};
ghost use Rattle.stationjudge.specs.Judging.{allowed_test, allows, awaited_test, changes_judged, fits_test, in_time_test, results_judged};
ghost use Rattle.answers.specs.Answered.{judged};

use answers::Refusal;
use figures::divides;
use places::{entry_or, is_set};
use stationruns::{fits, is_awaited, is_in_time, run_at};
use units::{ByteCount, ModeNo, ModuleNo, TaskNo, Ticks};

// 41: the first task place with a result that is not awaited.
pub fn not_awaited<'a>(
    given: &'a [u8; TaskNo::MOST],
    tasks: u8,
    runs: &'a [u32; ModeNo::MOST * TaskNo::MOST],
    modes: &'a [u8; ModuleNo::MOST],
    ages: &'a [u32; ModuleNo::MOST],
    homes: &'a [u8; TaskNo::MOST],
    had: &'a [u8; TaskNo::MOST],
    worsts: &'a [u32; TaskNo::MOST],
) -> Option<usize>
    ensures { spot_in result ≡ first_bad (awaited_test given.now tasks runs.now modes.now ages.now homes.now had.now worsts.now) (up_to most_tasks) }
{
    for t in 0..TaskNo::MOST {
        let run = run_at(runs, modes, ages, homes, TaskNo(t as u8));
        let in_plan = t < usize::from(tasks);
        let worst = Ticks(worsts[t]);
        if !is_awaited(is_set(given[t]), run, in_plan, is_set(had[t]), worst) {
            return Some(t);
        }
    }
    None
}

// 42: the first task place with a result that needs more bytes than the message has.
pub fn too_large<'a>(
    results: &'a [u64; TaskNo::MOST],
    given: &'a [u8; TaskNo::MOST],
    sizes: &'a [u8; TaskNo::MOST],
) -> Option<usize>
    ensures { spot_in result ≡ first_bad (fits_test results.now given.now sizes.now) (up_to most_tasks) }
{
    for t in 0..TaskNo::MOST {
        let result = is_set(given[t]).then_some(results[t]);
        if !fits(result, ByteCount(u32::from(sizes[t]))) {
            return Some(t);
        }
    }
    None
}

// 43: the first task place whose run has come to its worst time without a result.
pub fn overdue<'a>(
    given: &'a [u8; TaskNo::MOST],
    tasks: u8,
    runs: &'a [u32; ModeNo::MOST * TaskNo::MOST],
    modes: &'a [u8; ModuleNo::MOST],
    ages: &'a [u32; ModuleNo::MOST],
    homes: &'a [u8; TaskNo::MOST],
    had: &'a [u8; TaskNo::MOST],
    worsts: &'a [u32; TaskNo::MOST],
) -> Option<usize>
    ensures { spot_in result ≡ first_bad (in_time_test given.now tasks runs.now modes.now ages.now homes.now had.now worsts.now) (up_to most_tasks) }
{
    for t in 0..TaskNo::MOST {
        let run = run_at(runs, modes, ages, homes, TaskNo(t as u8));
        let in_plan = t < usize::from(tasks);
        let worst = Ticks(worsts[t]);
        if !is_in_time(is_set(given[t]), run, in_plan, is_set(had[t]), worst) {
            return Some(t);
        }
    }
    None
}

fn is_allowed<'a>(
    change: Option<u8>,
    m: ModuleNo,
    module_count: u8,
    mode_count: u8,
    homes: &'a [u8; ModeNo::MOST],
    switch: Ticks,
    age: Ticks,
) -> bool
    ensures { result ≡ allows module_count mode_count homes.now switch.0 age.0 m.0 (spot_in change) }
{
    match change {
        Some(mode) => {
            m.0 < module_count
                && mode < mode_count
                && entry_or(homes, ModeNo(mode).place(), 0) == m.0
                && divides(switch.0, age.0)
        }
        None => true,
    }
}

// 44: the first module place with a change that is not allowed.
pub fn not_allowed<'a>(
    modes: &'a [u8; ModuleNo::MOST],
    changed: &'a [u8; ModuleNo::MOST],
    module_count: u8,
    mode_count: u8,
    homes: &'a [u8; ModeNo::MOST],
    switches: &'a [u32; ModeNo::MOST],
    running: &'a [u8; ModuleNo::MOST],
    ages: &'a [u32; ModuleNo::MOST],
) -> Option<usize>
    ensures { spot_in result ≡ first_bad (allowed_test modes.now changed.now module_count mode_count homes.now switches.now running.now ages.now) (up_to most_modules) }
{
    for m in 0..ModuleNo::MOST {
        let switch = Ticks(entry_or(switches, ModeNo(running[m]).place(), 0));
        if !is_allowed(
            is_set(changed[m]).then_some(modes[m]),
            ModuleNo(m as u8),
            module_count,
            mode_count,
            homes,
            switch,
            Ticks(ages[m]),
        ) {
            return Some(m);
        }
    }
    None
}

// The first refusal of 41 to 43, all by the state before the tick.
pub fn judged_results<'a>(
    results: &'a [u64; TaskNo::MOST],
    given: &'a [u8; TaskNo::MOST],
    tasks: u8,
    runs: &'a [u32; ModeNo::MOST * TaskNo::MOST],
    modes: &'a [u8; ModuleNo::MOST],
    ages: &'a [u32; ModuleNo::MOST],
    homes: &'a [u8; TaskNo::MOST],
    had: &'a [u8; TaskNo::MOST],
    sizes: &'a [u8; TaskNo::MOST],
    worsts: &'a [u32; TaskNo::MOST],
) -> Result<(), Refusal>
    ensures { judged result ≡ results_judged results.now given.now tasks runs.now modes.now ages.now homes.now had.now sizes.now worsts.now }
{
    if let Some(t) = not_awaited(given, tasks, runs, modes, ages, homes, had, worsts) {
        return Err(Refusal::NotAwaited(TaskNo(t as u8)));
    }
    if let Some(t) = too_large(results, given, sizes) {
        return Err(Refusal::ResultTooLarge(TaskNo(t as u8)));
    }
    if let Some(t) = overdue(given, tasks, runs, modes, ages, homes, had, worsts) {
        return Err(Refusal::ResultOverdue(TaskNo(t as u8)));
    }
    Ok(())
}

// 44, where nothing was refused before.
pub fn judged_changes<'a>(
    before: Result<(), Refusal>,
    modes: &'a [u8; ModuleNo::MOST],
    changed: &'a [u8; ModuleNo::MOST],
    module_count: u8,
    mode_count: u8,
    homes: &'a [u8; ModeNo::MOST],
    switches: &'a [u32; ModeNo::MOST],
    running: &'a [u8; ModuleNo::MOST],
    ages: &'a [u32; ModuleNo::MOST],
) -> Result<(), Refusal>
    ensures { judged result ≡ changes_judged (judged before) modes.now changed.now module_count mode_count homes.now switches.now running.now ages.now }
{
    before?;
    match not_allowed(
        modes,
        changed,
        module_count,
        mode_count,
        homes,
        switches,
        running,
        ages,
    ) {
        Some(m) => Err(Refusal::ChangeNotAllowed(ModuleNo(m as u8))),
        None => Ok(()),
    }
}
