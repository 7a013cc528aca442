// The library for C and Rust: make, check, begin and tick of docs/RULES.md, what a station may be asked, a sheet written and read back, plans as
// text, and numbers in words; on byte slices, frame rows, stations and numbers. `olbiothar_c` exports each of them.
// No function has a precondition; an answer is a number and a place, for C has no enums that carry values.
// The lent frame rows are a slice of structs, and a tick changes a lent station in place. These are thin: functions below answer by value, and
// the passes of `rows` bring it into the lent rows.
#![tactic(auto)]

pub mod texts;

ghost use Rattle.std.specs.Prelude.{◌≡◌};
ghost use Rattle.olbiothar.specs.Lent.{ChecksRows, MakesRows};
ghost use Rattle.olbiothar.specs.Scanned.{Scans};
ghost use Rattle.rules.specs.Station.{begin};
ghost use Rattle.stationruns.specs.Inputs.{starting_at};
ghost use Rattle.olbiothar.specs.Playing.{BeginsIn, Ticks};
ghost use Rattle.station.specs.Memory.{kept_of, state_of};
ghost use Rattle.station.specs.Parts.{Valued};
ghost use Rattle.outward.specs.Seen.{module_now, task_now, time_now};
ghost use Rattle.olbiothar.specs.Sheets.{back_said, has_room, is_read, sheet_left, sheet_said, table_left, table_said};

use checker::CheckedRows;
use outward::{
    Answer, ModuleNow, TaskNow, TickAnswer, TimeNow, answer_before_nodes, module_now, task_now,
    time_now,
};
use rows::passes::{clear, fill, some_early, zero_bytes, zero_words};
use sheetreader::NoTable;
use station::{Station, nodes_after_tick};
use stationruns::{Input, Starting};
use units::{ByteCount, Frame};

// The table of a plan in an edition, at the front of the lent bytes; its length, or refusals 19, 62 and 1 to 13.
pub fn olbiothar_make(plan: &[u8], edition: u8, rows: &mut [Frame], table: &mut [u8]) -> Answer
    ensures { MakesRows result edition plan.now rows.old rows.new table.old table.new }
{
    let mut tasks = zero_bytes();
    let mut releases = zero_words();
    let mut deadlines = zero_words();
    let mut starts = zero_words();
    let making = maker::made_in(
        plan,
        edition,
        rows.len(),
        table,
        &mut tasks,
        &mut releases,
        &mut deadlines,
        &mut starts,
    );
    fill(rows, making.frames, &tasks, &releases, &deadlines, &starts);
    Answer::from(making.answer)
}

// A table file by its plan: refusals 19, 1 to 11 and 20 to 28, or that it passes. Rule 25 is decided by the scan of the lent rows; only where
// that finds an early row are all rules looked at by value, for the lowest record.
pub fn olbiothar_check(plan: &[u8], table: &[u8], rows: &mut [Frame]) -> Answer
    ensures { ChecksRows result plan.now table.now rows.old rows.new }
{
    let mut tasks = zero_bytes();
    let mut releases = zero_words();
    let mut deadlines = zero_words();
    let mut starts = zero_words();
    let unscanned = checker::judged(
        plan,
        table,
        rows.len(),
        false,
        &mut tasks,
        &mut releases,
        &mut deadlines,
        &mut starts,
    );
    fill(
        rows,
        unscanned.frames,
        &tasks,
        &releases,
        &deadlines,
        &starts,
    );
    scanned(plan, table, rows, unscanned)
}

// The rows of a table that was judged by all rules but 25, looked through for an early one.
fn scanned(plan: &[u8], table: &[u8], rows: &mut [Frame], unscanned: CheckedRows) -> Answer
    ensures { Scans result plan.now table.now unscanned rows.old rows.new }
{
    let early = some_early(rows, unscanned.frames, false);
    let settled = checker::settled(plan, table, rows.len(), unscanned.answer, early);
    clear(rows, unscanned.frames, settled.refused);
    Answer::from(settled.answer)
}

// A station begins with a plan, a table and a mode for each module, in place; where that is refused it is left as it stood.
pub fn olbiothar_begin(
    plan: &[u8],
    table: &[u8],
    starting: Starting,
    station: &mut Station,
) -> Answer
    ensures { BeginsIn (begin plan.now table.now (starting_at starting)) station.old result station.new }
{
    let begun = beginning::begin(plan, table, starting);
    if begun.answer.is_ok() {
        *station = begun.station;
    }
    Answer::from(begun.answer)
}

// What the nodes hold landed and shown fits its type, as of every station. A look behind the reference makes the type's word known; nothing is
// done with it.
fn fits(station: &Station)
    ensures { Valued station.now.nodes }
{
    let _looked = station.runs[0];
}

// One tick, in place; a refused one leaves the station as it stood.
pub fn olbiothar_tick(station: &mut Station, input: Input) -> TickAnswer
    ensures { Ticks station.old input result station.new }
{
    fits(station);
    let first = answer_before_nodes(
        input,
        station.fixed,
        station.play,
        &station.runs,
        &station.pair_tasks,
        &station.pair_deadlines,
        &station.pair_starts,
        &station.pair_stops,
        &station.pair_modes,
    );
    station.play = first.part.play;
    if first.part.idle {} else {
        station.nodes = nodes_after_tick(station.nodes, station.fixed, first.part);
    }
    first.tick
}

// The bus time of the tick to come, and the bus period, of a station that has begun. Any numbers may stand in the station, here and below.
pub fn olbiothar_time(station: &Station) -> TimeNow
    ensures { result ≡ time_now (kept_of station.now) (state_of station.now) }
{
    time_now(station.fixed, station.play)
}

// A module's node, the mode that runs, and the time since that mode began.
pub fn olbiothar_module(station: &Station, m: u8) -> ModuleNow
    ensures { result ≡ module_now (kept_of station.now) (state_of station.now) m }
{
    module_now(station.fixed, station.play, m)
}

// A task's module, whether it awaits a result, and how many ticks may still pass without it.
pub fn olbiothar_task(station: &Station, t: u8) -> TaskNow
    ensures { result ≡ task_now (kept_of station.now) (state_of station.now) t }
{
    task_now(station.fixed, station.play, &station.runs, t)
}

// A sheet: what check says of plan and table, and how long the text is.
#[repr(C)]
#[derive(Clone, Copy)]
pub struct SheetAnswer {
    pub checked: Answer,
    pub length: u64,
}

// The sheet of a plan and a table, at the front of the lent bytes. Room for the longest sheet is asked for before all else: 13.
pub fn olbiothar_sheet(plan: &[u8], table: &[u8], text: &mut [u8]) -> SheetAnswer
    ensures value { result ≡ sheet_said (has_room text.old) plan.now table.now }
    ensures text_after { text.new ≡ sheet_left (has_room text.old) text.old plan.now table.now }
{
    if text.len() < ByteCount::LONGEST_SHEET {
        return SheetAnswer {
            checked: Answer {
                number: 13,
                place: ByteCount::LONGEST_SHEET as u64,
            },
            length: 0,
        };
    }
    let written = sheetwriter::write(plan, table, text);
    SheetAnswer {
        checked: Answer::from(written.answer),
        length: written.length as u64,
    }
}

// What reading a sheet back comes to: 60 at the line that cannot be read, 13 at the bytes that the table needs.
fn read_said(back: Result<usize, NoTable>) -> Answer
    ensures { result ≡ back_said back }
{
    match back {
        Ok(length) => Answer {
            number: 0,
            place: length as u64,
        },
        Err(NoTable::Unreadable(line)) => Answer {
            number: 60,
            place: line,
        },
        Err(NoTable::Needs(bytes)) => Answer {
            number: 13,
            place: bytes as u64,
        },
    }
}

// The table of a sheet, at the front of the lent bytes; its length, or the refusals 61, 60 and 13.
pub fn olbiothar_sheet_table(text: &[u8], table: &mut [u8]) -> Answer
    ensures value { result ≡ table_said (is_read text.now) text.now table.old }
    ensures table_after { table.new ≡ table_left (is_read text.now) text.now table.old }
{
    if ByteCount::LONGEST_SHEET < text.len() {
        return Answer {
            number: 61,
            place: ByteCount::LONGEST_SHEET as u64,
        };
    }
    let back = sheetreader::read_back(text, table);
    read_said(back)
}
