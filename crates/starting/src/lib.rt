// A station that keeps a passed plan and table, in its starting modes: refusal 40 of a beginning.
#![tactic(auto)]

ghost use Rattle.std.specs.Prelude.{◌≡◌, Err};
ghost use Rattle.laws.specs.Lists.{first_bad, up_to};
ghost use Rattle.laws.specs.Loops.{stores};
ghost use Rattle.rules.specs.Limits.{most_modules};
ghost use Rattle.stationsteps.specs.Steps.{mode_rule};
ghost use Rattle.places.specs.Spot.{spot_in};
ghost use Rattle.station.specs.Memory.{not_begun};
ghost use Rattle.starting.specs.Starting.{begun_by, play_in, start_test};

use answers::Refusal;
use places::{entry_or, flag_at};
use station::Station;
use stationrefusals::Play;
use stationruns::Starting;
use stationsteps::modes_after;
use units::{ModeNo, ModuleNo};

// The answer, and the station beside it: not begun, all zero, where the beginning is refused.
#[derive(Clone, Copy)]
pub struct Begun {
    pub answer: Result<(), Refusal>,
    pub station: Station,
}

pub fn refused(why: Refusal) -> Begun
    ensures { result ≡ record { answer = Err why; station = not_begun } }
{
    Begun {
        answer: Err(why),
        station: Station::not_begun(),
    }
}

// Whether the starting place of a module holds a mode of its own; behind the last module it holds nothing.
#[tactic(auto, unfolding(crate::specs::Starting::start_test))]
fn starts_well<'a>(
    starting: &'a Starting,
    m: usize,
    module_count: u8,
    mode_count: u8,
    homes: &'a [u8; ModeNo::MOST],
) -> bool
    ensures { result ≡ start_test starting.now module_count mode_count homes.now m }
{
    let is_module = m < usize::from(module_count);
    if flag_at(&starting.given, m) {
        let mode = ModeNo(entry_or(&starting.modes, m, 0));
        is_module && mode.0 < mode_count && usize::from(entry_or(homes, mode.place(), 0)) == m
    } else {
        !is_module
    }
}

// 40: the first starting place at fault.
fn wrong_start<'a>(
    starting: &'a Starting,
    module_count: u8,
    mode_count: u8,
    homes: &'a [u8; ModeNo::MOST],
) -> Option<usize>
    ensures { spot_in result ≡ first_bad (start_test starting.now module_count mode_count homes.now) (up_to most_modules) }
{
    for m in 0..ModuleNo::MOST {
        if !starts_well(starting, m, module_count, mode_count, homes) {
            return Some(m);
        }
    }
    None
}

// The play in its starting modes.
fn started(mut play: Play, starting: Starting) -> Play
    ensures { result ≡ play_in play (stores play.running (mode_rule starting.modes starting.given play.running) most_modules) }
{
    let none = play.running;
    let given = starting.given;
    let running = modes_after(&starting.modes, given, none);
    play.running = running;
    play
}

// A station that keeps a passed plan and table, in its starting modes.
pub fn begin_with(mut kept: Station, starting: Starting) -> Begun
    ensures { result ≡ begun_by kept starting }
{
    match wrong_start(
        &starting,
        kept.fixed.modules.count,
        kept.fixed.modes.count,
        &kept.fixed.modes.homes,
    ) {
        Some(m) => refused(Refusal::NotBegun(ModuleNo(m as u8))),
        None => {
            let play = kept.play;
            kept.play = started(play, starting);
            Begun {
                answer: Ok(()),
                station: kept,
            }
        }
    }
}
