// The exports for C: each function of `olbiothar` under its own name, with the same clauses. include/olbiothar.h says what C has to know of them.
#![tactic(auto)]

ghost use Rattle.std.specs.Prelude.{◌≡◌};
ghost use Rattle.rules.specs.Station.{begin};
ghost use Rattle.stationruns.specs.Inputs.{starting_at};
ghost use Rattle.station.specs.Memory.{kept_of, state_of};
ghost use Rattle.planreader.specs.Memory as reading;
ghost use Rattle.planwriter.specs.Printing as printing;
ghost use Rattle.meanings.specs.Meanings.{meaning};
ghost use Rattle.reasons.specs.Numbers.{reason_words};
ghost use Rattle.outward.specs.Seen.{module_now, task_now, time_now};
ghost use Rattle.olbiothar.specs.Lent.{ChecksRows, MakesRows};
ghost use Rattle.olbiothar.specs.Playing.{BeginsIn, Ticks};
ghost use Rattle.olbiothar.specs.Sheets.{has_room, is_read, sheet_left, sheet_said, table_left, table_said};
ghost use Rattle.olbiothar.specs.Texts.{plan_said, text_said};
ghost use Rattle.olbiothar.specs.Words.{holds_words, words_left, words_said};

use olbiothar::SheetAnswer;
use olbiothar::texts::{self, PlanAnswer};
use outward::{Answer, ModuleNow, TaskNow, TickAnswer, TimeNow};
use station::Station;
use stationruns::{Input, Starting};
use units::Frame;

// The table of a plan in an edition, at the front of the lent bytes; its length, or refusals 19, 62 and 1 to 13.
#[unsafe(no_mangle)]
pub extern "C" fn olbiothar_make(
    plan: &[u8],
    edition: u8,
    rows: &mut [Frame],
    table: &mut [u8],
) -> Answer
    ensures { MakesRows result edition plan.now rows.old rows.new table.old table.new }
{
    olbiothar::olbiothar_make(plan, edition, rows, table)
}

// A table file by its plan: refusals 19, 1 to 11 and 20 to 28, or that it passes.
#[unsafe(no_mangle)]
pub extern "C" fn olbiothar_check(plan: &[u8], table: &[u8], rows: &mut [Frame]) -> Answer
    ensures { ChecksRows result plan.now table.now rows.old rows.new }
{
    olbiothar::olbiothar_check(plan, table, rows)
}

// A station begins with a plan, a table and a mode for each module, in place; where that is refused it is left as it stood.
#[unsafe(no_mangle)]
pub extern "C" fn olbiothar_begin(
    plan: &[u8],
    table: &[u8],
    starting: Starting,
    station: &mut Station,
) -> Answer
    ensures { BeginsIn (begin plan.now table.now (starting_at starting)) station.old result station.new }
{
    olbiothar::olbiothar_begin(plan, table, starting, station)
}

// One tick, in place; a refused one leaves the station as it stood.
#[unsafe(no_mangle)]
pub extern "C" fn olbiothar_tick(station: &mut Station, input: Input) -> TickAnswer
    ensures { Ticks station.old input result station.new }
{
    olbiothar::olbiothar_tick(station, input)
}

// The bus time of the tick to come, and the bus period, of a station that has begun. Any numbers may stand in the station, here and below.
#[unsafe(no_mangle)]
pub extern "C" fn olbiothar_time(station: &Station) -> TimeNow
    ensures { result ≡ time_now (kept_of station.now) (state_of station.now) }
{
    olbiothar::olbiothar_time(station)
}

// A module's node, the mode that runs, and the time since that mode began.
#[unsafe(no_mangle)]
pub extern "C" fn olbiothar_module(station: &Station, m: u8) -> ModuleNow
    ensures { result ≡ module_now (kept_of station.now) (state_of station.now) m }
{
    olbiothar::olbiothar_module(station, m)
}

// A task's module, whether it awaits a result, and how many ticks may still pass without it.
#[unsafe(no_mangle)]
pub extern "C" fn olbiothar_task(station: &Station, t: u8) -> TaskNow
    ensures { result ≡ task_now (kept_of station.now) (state_of station.now) t }
{
    olbiothar::olbiothar_task(station, t)
}

// The sheet of a plan and a table, at the front of the lent bytes. Room for the longest sheet is asked for before all else: 13.
#[unsafe(no_mangle)]
pub extern "C" fn olbiothar_sheet(plan: &[u8], table: &[u8], text: &mut [u8]) -> SheetAnswer
    ensures value { result ≡ sheet_said (has_room text.old) plan.now table.now }
    ensures text_after { text.new ≡ sheet_left (has_room text.old) text.old plan.now table.now }
{
    olbiothar::olbiothar_sheet(plan, table, text)
}

// The table of a sheet, at the front of the lent bytes; its length, or the refusals 61, 60 and 13.
#[unsafe(no_mangle)]
pub extern "C" fn olbiothar_sheet_table(text: &[u8], table: &mut [u8]) -> Answer
    ensures value { result ≡ table_said (is_read text.now) text.now table.old }
    ensures table_after { table.new ≡ table_left (is_read text.now) text.now table.old }
{
    olbiothar::olbiothar_sheet_table(text, table)
}

// The text of a plan, at the front of the lent bytes; its length, or 61, 1, 13.
#[unsafe(no_mangle)]
pub extern "C" fn olbiothar_plan_text(plan: &[u8], text: &mut [u8]) -> Answer
    ensures value { result ≡ text_said (printing.printing_for plan.now text.old) }
    ensures text_after { text.new ≡ printing.left_by plan.now text.old }
{
    texts::olbiothar_plan_text(plan, text)
}

// The plan of a text, at the front of the lent bytes; its length, or 61, 60 with its reason, 13.
#[unsafe(no_mangle)]
pub extern "C" fn olbiothar_text_plan(text: &[u8], plan: &mut [u8]) -> PlanAnswer
    ensures value { result ≡ plan_said (reading.back_for text.now plan.old) }
    ensures plan_after { plan.new ≡ reading.left_by text.now plan.old }
{
    texts::olbiothar_text_plan(text, plan)
}

// The words of an answer's number, at the front of the lent bytes, then a zero byte; their length without it. Where there is no room for the
// longest nothing is written, and the length is 0.
#[unsafe(no_mangle)]
pub extern "C" fn olbiothar_words(number: u32, text: &mut [u8]) -> u64
    ensures value { result ≡ words_said (holds_words text.old) (meaning number) }
    ensures text_after { text.new ≡ words_left (holds_words text.old) text.old (meaning number) }
{
    texts::olbiothar_words(number, text)
}

// The same of a reason's number.
#[unsafe(no_mangle)]
pub extern "C" fn olbiothar_reason_words(reason: u32, text: &mut [u8]) -> u64
    ensures value { result ≡ words_said (holds_words text.old) (reason_words reason) }
    ensures text_after { text.new ≡ words_left (holds_words text.old) text.old (reason_words reason) }
{
    texts::olbiothar_reason_words(reason, text)
}
