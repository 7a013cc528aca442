// What a tick is given, and the run of a task that it meets: whether a result is awaited, whether it fits, whether the run ends.
#![tactic(auto)]

ghost use Rattle.std.specs.Prelude.{◌≡◌, not, ◌||◌, ltb, ◌^◌};
ghost use Rattle.rules.specs.Station.{fits_in};
ghost use Rattle.places.specs.Spot.{spot_in};
ghost use Rattle.stationruns.specs.Inputs.{no_input};
ghost use Rattle.stationruns.specs.Runs.{awaits, ends_run, last_chance, period_at, run_at, since_release, under_way};

use figures::{divides, rest};
use places::entry_or;
use units::{ByteCount, ModeNo, ModuleNo, TaskNo, Ticks};

// What a tick is given: by task place a result, which counts where `given` is set, and by module place a mode to change to, which counts
// where `changed` is set. A flag is set where its byte is not 0.
#[repr(C)]
#[derive(Clone, Copy)]
pub struct Input {
    pub results: [u64; TaskNo::MOST],
    pub given: [u8; TaskNo::MOST],
    pub modes: [u8; ModuleNo::MOST],
    pub changed: [u8; ModuleNo::MOST],
}

impl Input {
    // Nothing is given.
    pub fn none() -> Input
        ensures { result ≡ no_input }
    {
        Input {
            results: [0; TaskNo::MOST],
            given: [0; TaskNo::MOST],
            modes: [0; ModuleNo::MOST],
            changed: [0; ModuleNo::MOST],
        }
    }
}

// What a beginning is given: by module place its starting mode, which counts where `given` is set.
#[repr(C)]
#[derive(Clone, Copy)]
pub struct Starting {
    pub modes: [u8; ModuleNo::MOST],
    pub given: [u8; ModuleNo::MOST],
}

// A task's run: the period of its invocation in the mode that runs, 0 where there is none, and the time since that mode began.
#[derive(Clone, Copy, Default, PartialEq, Eq)]
pub struct Run {
    pub period: Ticks,
    pub age: Ticks,
}

// The period of a task in a mode.
pub fn period_at<'a>(
    runs: &'a [u32; ModeNo::MOST * TaskNo::MOST],
    mode: ModeNo,
    task: TaskNo,
) -> Ticks
    ensures { result ≡ record { 0 = period_at runs.now mode.0 task.0 } }
{
    Ticks(entry_or(runs, mode.place() * TaskNo::MOST + task.place(), 0))
}

pub fn run_at<'a>(
    runs: &'a [u32; ModeNo::MOST * TaskNo::MOST],
    modes: &'a [u8; ModuleNo::MOST],
    ages: &'a [u32; ModuleNo::MOST],
    homes: &'a [u8; TaskNo::MOST],
    task: TaskNo,
) -> Run
    ensures { result ≡ run_at runs.now modes.now ages.now homes.now task.0 }
{
    let home = ModuleNo(entry_or(homes, task.place(), 0)).place();
    let mode = ModeNo(entry_or(modes, home, 0));
    Run {
        period: period_at(runs, mode, task),
        age: Ticks(entry_or(ages, home, 0)),
    }
}

impl Run {
    pub fn is_under_way(self) -> bool
        ensures { result ≡ under_way self }
    {
        0 < self.period.0 && 0 < self.age.0
    }

    // The run's age, 1 to its period: the tick of a release is the last of the run before.
    fn since_release(self) -> Ticks
        ensures { result.0 ≡ since_release self }
    {
        Ticks(rest(self.age.0.saturating_sub(1), self.period.0) + 1)
    }

    fn is_awaited(self, in_plan: bool, given: bool, worst: Ticks) -> bool
        ensures { result ≡ awaits self in_plan given worst.0 }
    {
        in_plan && self.is_under_way() && !given && self.since_release() <= worst
    }

    fn is_last_chance(self, in_plan: bool, worst: Ticks) -> bool
        ensures { result ≡ last_chance self in_plan worst.0 }
    {
        in_plan && self.is_under_way() && self.since_release() == worst
    }

    pub fn ends(self) -> bool
        ensures { result ≡ ends_run self }
    {
        self.is_under_way() && divides(self.period.0, self.age.0)
    }
}

pub fn is_awaited(given: bool, run: Run, in_plan: bool, had: bool, worst: Ticks) -> bool
    ensures { result ≡ (not given || awaits run in_plan had worst.0) }
{
    !given || run.is_awaited(in_plan, had, worst)
}

// The least number that needs more than so many bytes.
const ABOVE: [u64; 8] = [
    1,
    0x100,
    0x10000,
    0x1000000,
    0x100000000,
    0x10000000000,
    0x1000000000000,
    0x100000000000000,
];

// Whether a value has at most this many bytes.
fn has_bytes(value: u64, size: ByteCount) -> bool
    ensures { result ≡ ltb value (256 ^ size.0) }
{
    match ABOVE.get(size.count()) {
        Some(above) => value < *above,
        None => true,
    }
}

// Whether the result, if one is given, has at most so many bytes.
pub fn fits(given: Option<u64>, size: ByteCount) -> bool
    ensures { result ≡ fits_in size.0 (spot_in given) }
{
    match given {
        Some(value) => has_bytes(value, size),
        None => true,
    }
}

pub fn is_in_time(given: bool, run: Run, in_plan: bool, had: bool, worst: Ticks) -> bool
    ensures { result ≡ (not (last_chance run in_plan worst.0) || (had || given)) }
{
    had || given || !run.is_last_chance(in_plan, worst)
}
