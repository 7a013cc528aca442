// The steps (a), (c) and (d) of a tick, each on the array that it changes; what it reads is lent.
#![tactic(auto)]

ghost use Rattle.std.specs.Prelude.{◌≡◌, cond, false, not, ◌&&◌, ◌||◌, get_or, length, replicate, ℕ, ◌<◌};
ghost use Rattle.laws.specs.Loops.{stores};
ghost use Rattle.rules.specs.Limits.{most_modules, most_tasks};
ghost use Rattle.rules.specs.Station.{one_on};
ghost use Rattle.stationsteps.specs.Steps.{age_rule, ends_rule, had_rule, mode_rule, out_rule, taken_rule};

use places::{entry_or, flag_at, flag_byte, is_set};
use stationruns::run_at;
use units::{ModeNo, ModuleNo, TaskNo, Ticks};

// Each place takes the value that it is given, where it is given one.
fn take_given<T: Copy>(places: &mut [T], values: &[T], given: &[u8])
    requires { (length values.now ≡ length places.old) × (length given.now ≡ length places.old) }
    ensures { (outside : T) → places.new ≡ stores places.old (taken_rule values.now given.now places.old outside) (length places.old) }
{
    for (k, place) in places.iter_mut().enumerate() {
        if is_set(given[k]) {
            *place = values[k];
        }
    }
}

// (a) The flags go by value, for an array by value has its length: behind it nothing is given.
pub fn out_after<'a>(
    results: &'a [u64; TaskNo::MOST],
    given: [u8; TaskNo::MOST],
    mut out: [u64; TaskNo::MOST],
) -> [u64; TaskNo::MOST]
    ensures value { result ≡ stores out (out_rule results.now given out) most_tasks }
    ensures reads { (t : ℕ) → get_or result t 0 ≡ out_rule results.now given out t }
{
    take_given(&mut out, results, &given);
    out
}

// Whether the run of each task ends now.
pub fn ends_now<'a>(
    runs: &'a [u32; ModeNo::MOST * TaskNo::MOST],
    modes: &'a [u8; ModuleNo::MOST],
    ages: &'a [u32; ModuleNo::MOST],
    homes: &'a [u8; TaskNo::MOST],
) -> [bool; TaskNo::MOST]
    ensures { result ≡ stores (replicate most_tasks false) (ends_rule runs.now modes.now ages.now homes.now) most_tasks }
{
    let mut ends = [false; TaskNo::MOST];
    for (t, end) in ends.iter_mut().enumerate() {
        *end = run_at(runs, modes, ages, homes, TaskNo(t as u8)).ends();
    }
    ends
}

// (d) The flags go by value, as those of `out_after`.
pub fn modes_after<'a>(
    modes: &'a [u8; ModuleNo::MOST],
    changed: [u8; ModuleNo::MOST],
    mut running: [u8; ModuleNo::MOST],
) -> [u8; ModuleNo::MOST]
    ensures value { result ≡ stores running (mode_rule modes.now changed running) most_modules }
    ensures reads { (m : ℕ) → get_or result m 0 ≡ mode_rule modes.now changed running m }
{
    take_given(&mut running, modes, &changed);
    running
}

// One tick on, from 1 to a period and again from 1.
#[tactic(auto, unfolding(rules::specs::Station::one_on))]
pub fn one_on(time: Ticks, period: Ticks) -> Ticks
    ensures { result ≡ record { 0 = one_on time.0 period.0 } }
{
    Ticks(if time < period { time.0 + 1 } else { 1 })
}

fn age_at(changed: bool, age: Ticks, period: Ticks) -> Ticks
    ensures { result.0 ≡ cond changed 1 (one_on age.0 period.0) }
{
    if changed {
        Ticks(1)
    } else {
        one_on(age, period)
    }
}

// `running` are the modes before (d).
pub fn ages_after<'a>(
    changed: &'a [u8; ModuleNo::MOST],
    mut ages: [u32; ModuleNo::MOST],
    running: &'a [u8; ModuleNo::MOST],
    periods: &'a [u32; ModeNo::MOST],
) -> [u32; ModuleNo::MOST]
    ensures { result ≡ stores ages (age_rule changed.now running.now periods.now ages) most_modules }
{
    for (m, age) in ages.iter_mut().enumerate() {
        let mode = ModeNo(running[m]).place();
        let period = Ticks(entry_or(periods, mode, 0));
        *age = age_at(is_set(changed[m]), Ticks(*age), period).0;
    }
    ages
}

fn had_at(given: bool, ends: bool, changed: bool, had: bool) -> bool
    ensures { result ≡ (not (ends || changed) && (had || given)) }
{
    !(ends || changed) && (had || given)
}

// Whether each task's run has had its result.
pub fn had_after<'a>(
    given: &'a [u8; TaskNo::MOST],
    changed: &'a [u8; ModuleNo::MOST],
    mut had: [u8; TaskNo::MOST],
    ends: &'a [bool; TaskNo::MOST],
    homes: &'a [u8; TaskNo::MOST],
) -> [u8; TaskNo::MOST]
    ensures { result ≡ stores had (had_rule given.now changed.now ends.now homes.now had) most_tasks }
{
    for (t, flag) in had.iter_mut().enumerate() {
        let changes = flag_at(changed, ModuleNo(homes[t]).place());
        *flag = flag_byte(had_at(is_set(given[t]), ends[t], changes, is_set(*flag)));
    }
    had
}
