// A history is heard: each line is read as soon as it has come, what it says is done, and its answer is written to standard output
// (docs/HISTORY.md). No contract can say what a write writes; what is written is pinned where it is put into a buffer.
#![tactic(auto)]

ghost use Rattle.std.specs.Prelude.{true, cond, leb, ◌≡◌, ◌≤◌, drop, length, min, take, IfOk};
ghost use Rattle.std.proofs.lemmas.List.Edits.{sets};
ghost use Rattle.rules.specs.Station as rules;
ghost use Rattle.input.specs.Room.{zeros};
ghost use Rattle.station.specs.Answers.{is_refused};
ghost use Rattle.station.specs.Memory.{ruled};
ghost use Rattle.stationruns.specs.Inputs.{no_input, starting_at};
ghost use Rattle.history.specs.Reading.{starting_from};
ghost use Rattle.hearing.specs.Heard.{after_quiet, after_tick, begun_by, first_by, heard_line, is_fine, later_by, quiet_said, tick_text, unheard};
ghost use Rattle.hearing.specs.Pieces.{answered, is_stopped, last_heard};

use answerlines::{put_begun, put_quiet, put_ticked, same_shown};
use answers::Refusal;
use history::{Line, Places, What, input_of, read_line, starting_of};
use input::read_more;
use manners::{Failed, write_out};
use station::Station;
use stationmoves::StartedRow;
use stationruns::Input;
use std::io::Read;
use text::lines::line_end;

// The longest history.
pub const LONGEST: usize = 262144;

// How far a history has come.
#[derive(Clone, Copy, PartialEq, Eq)]
pub enum Stage {
    // No line with a word has come.
    Waits,
    // The station has begun, or its beginning was refused: then its ticks are refused too.
    Plays(bool),
    // This line cannot be read where it stands; nothing behind it is heard.
    Stops(u64),
}

// A history as far as it was heard, and the station after it.
#[derive(Clone, Copy)]
pub struct Heard {
    pub stage: Stage,
    pub station: Station,
}

// A tick's answer, which stands at the front of a buffer with this length, and the station after it.
#[derive(Clone, Copy)]
pub struct Answered {
    pub refused: bool,
    pub length: usize,
    pub station: Station,
}

// What was heard of as many bytes.
#[derive(Clone, Copy)]
pub struct Attended {
    pub length: usize,
    pub heard: Heard,
}

// ---- answers

// Writes the text, if there is any.
fn say(rt: HostRuntime, text: &[u8]) -> Result<(), Failed> {
    if !text.is_empty() {
        write_out(rt, text, 0)?;
    }
    Ok(())
}

// Room for the longest answer, which has at most 16,295 bytes.
fn answer_room() -> [u8; 16384]
    ensures { (result ≡ zeros 16384) × (16384 ≡ length result) }
{
    [0; 16384]
}

fn is_refused(said: Result<Option<StartedRow>, Refusal>) -> bool
    ensures { result ≡ is_refused said }
{
    said.is_err()
}

fn is_fine(answer: Result<(), Refusal>) -> bool
    ensures { result ≡ is_fine answer }
{
    answer.is_ok()
}

// A tick, and its answer.
fn answer_tick(out: &mut [u8], rows: bool, station: Station, input: Input) -> Answered
    ensures station_value { result.station ≡ after_tick station input }
    ensures text { (out.new ≡ sets out.old 0 (tick_text rows station (ruled station input))) × (result.length ≡ length (tick_text rows station (ruled station input))) }
    ensures few { result.length ≤ 16295 }
{
    let ticked = station.tick(input);
    let said = ticked.said;
    let next = ticked.station;
    let nodes = next.nodes;
    let length = put_ticked(out, rows, said, nodes);
    Answered {
        refused: is_refused(said),
        length,
        station: next,
    }
}

// The k-th of quiet ticks, and what is said of it. A refused one leaves the station as it was.
fn answer_quiet(out: &mut [u8], k: u64, rows: bool, station: Station) -> Answered
    ensures station_value { result.station ≡ after_tick station no_input }
    ensures stays { result.refused ≡ true → result.station ≡ station }
    ensures text { (out.new ≡ sets out.old 0 (quiet_said k rows station (ruled station no_input))) × (result.length ≡ length (quiet_said k rows station (ruled station no_input))) }
    ensures few { result.length ≤ 16295 }
{
    let before = station.nodes;
    let ticked = station.tick(Input::none());
    let said = ticked.said;
    let next = ticked.station;
    let after = next.nodes;
    let length = put_quiet(out, k, rows, said, !same_shown(before, after), after);
    Answered {
        refused: is_refused(said),
        length,
        station: next,
    }
}

// ---- lines

fn tick(rt: HostRuntime, rows: bool, station: &mut Station, input: Input) -> Result<(), Failed>
    ensures { station.new ≡ after_tick station.old input }
{
    let mut out = answer_room();
    let answered = answer_tick(&mut out, rows, *station, input);
    *station = answered.station;
    let length = answered.length;
    say(rt, &out[..length])
}

// Ticks at which nothing is given, up to a refusal.
fn quiet(rt: HostRuntime, rows: bool, mut station: Station, ticks: u64) -> Result<Station, Failed>
    ensures { IfOk result (λ next. next ≡ after_quiet station ticks) }
{
    let mut out = answer_room();
    for k in 0..ticks {
        let answered = answer_quiet(&mut out, k + 1, rows, station);
        let length = answered.length;
        say(rt, &out[..length])?;
        let next = answered.station;
        station = next;
        if answered.refused {
            return Ok(station);
        }
    }
    Ok(station)
}

fn begin(rt: HostRuntime, plan: &[u8], table: &[u8], modes: Places) -> Result<Heard, Failed>
    ensures { IfOk result (λ heard. heard ≡ begun_by (rules.begin plan.now table.now (starting_at (starting_from modes)))) }
{
    let begun = beginning::begin(plan, table, starting_of(modes));
    let answer = begun.answer;
    let station = begun.station;
    let mut out = [0u8; 64];
    let length = put_begun(&mut out, answer);
    say(rt, &out[..length])?;
    Ok(Heard {
        stage: Stage::Plays(is_fine(answer)),
        station,
    })
}

// A line where none with a word has come before.
fn hear_first(
    rt: HostRuntime,
    plan: &[u8],
    table: &[u8],
    number: u64,
    heard: &mut Heard,
    line: Line,
) -> Result<(), Failed>
    ensures { IfOk result (λ done. heard.new ≡ first_by plan.now table.now number heard.old.station line line.what) }
{
    let what = line.what;
    match what {
        What::Blank => heard.stage = Stage::Waits,
        What::Begin => {
            let modes = line.modes;
            let begun = begin(rt, plan, table, modes)?;
            *heard = begun;
        }
        What::Tick | What::Quiet(_) | What::Unreadable => heard.stage = Stage::Stops(number),
    }
    Ok(())
}

// A line behind the beginning.
fn hear_later(
    rt: HostRuntime,
    rows: bool,
    number: u64,
    begun: bool,
    heard: &mut Heard,
    line: Line,
) -> Result<(), Failed>
    ensures { IfOk result (λ done. heard.new ≡ later_by number begun heard.old.station line line.what) }
{
    heard.stage = Stage::Plays(begun);
    let what = line.what;
    match what {
        What::Blank => {}
        What::Tick => {
            let results = line.results;
            let modes = line.modes;
            tick(rt, rows, &mut heard.station, input_of(results, modes))?;
        }
        What::Quiet(ticks) => {
            let next = quiet(rt, rows, heard.station, ticks)?;
            heard.station = next;
        }
        What::Begin | What::Unreadable => heard.stage = Stage::Stops(number),
    }
    Ok(())
}

// A line, without its line feed; `number` is its number.
fn hear(
    rt: HostRuntime,
    plan: &[u8],
    table: &[u8],
    rows: bool,
    heard: &mut Heard,
    number: u64,
    s: &[u8],
) -> Result<(), Failed>
    ensures { IfOk result (λ done. heard.new ≡ heard_line plan.now table.now number heard.old s.now) }
{
    let line = read_line(s);
    let stage = heard.stage;
    match stage {
        Stage::Waits => hear_first(rt, plan, table, number, heard, line),
        Stage::Plays(begun) => hear_later(rt, rows, number, begun, heard, line),
        Stage::Stops(_) => Ok(()),
    }
}

// ---- a history as it comes

fn unheard() -> Heard
    ensures { result ≡ unheard }
{
    Heard {
        stage: Stage::Waits,
        station: Station::not_begun(),
    }
}

// A line stops the history, and nothing more is heard.
fn is_stopped(stage: Stage) -> bool
    ensures { result ≡ is_stopped stage }
{
    matches!(stage, Stage::Stops(_))
}

// The line that has no line feed at the end of a history, if one stands there.
fn hear_last(
    rt: HostRuntime,
    plan: &[u8],
    table: &[u8],
    rows: bool,
    heard: &mut Heard,
    lines: u64,
    s: &[u8],
) -> Result<(), Failed>
    requires { lines ≤ 18446744073709551614 }
    ensures { IfOk result (λ done. heard.new ≡ last_heard plan.now table.now lines heard.old s.now) }
{
    if s.len() == 0 {
        return Ok(());
    }
    hear(rt, plan, table, rows, heard, lines + 1, s)
}

// The end of a history whose lines in front of a place were heard. A history that is too long has no last line.
fn hear_end(
    rt: HostRuntime,
    plan: &[u8],
    table: &[u8],
    rows: bool,
    heard: &mut Heard,
    lines: u64,
    at: usize,
    s: &[u8],
) -> Result<(), Failed>
    requires lines_bound { lines ≤ 18446744073709551614 }
    requires at_in_bounds { at ≤ length s.now }
    ensures { IfOk result (λ done. heard.new ≡ cond (leb (length s.now) 262144) (last_heard plan.now table.now lines heard.old (drop at s.now)) heard.old) }
{
    if s.len() <= LONGEST {
        return hear_last(rt, plan, table, rows, heard, lines, &s[at..]);
    }
    Ok(())
}

// Of so many bytes that came, as many are heard line by line.
fn heard_part(came: usize) -> usize
    ensures { result ≡ min came 262144 }
{
    came.min(LONGEST)
}

// Reads a history into the lent buffer, piece by piece, and hears each line as soon as it has come whole. It ends where the input ends,
// at a full buffer, and at a line that stops the history; `length` bytes have come by then.
pub fn attend<R: Read>(
    rt: HostRuntime,
    plan: &[u8],
    table: &[u8],
    rows: bool,
    from: &mut R,
    buf: &mut [u8],
) -> Result<Attended, Failed>
    ensures heard_value { IfOk result (λ a. a.heard ≡ answered plan.now table.now (take a.length buf.new)) }
    ensures within { IfOk result (λ a. a.length ≤ length buf.new) }
{
    let mut heard = unheard();
    let mut lines: u64 = 0;
    let mut at = 0;
    let mut came = 0;
    loop {
        let heard_to = heard_part(came);
        let end = line_end(&buf[..heard_to], at);
        let ended = end < heard_to;
        if ended {
            lines += 1;
            hear(rt, plan, table, rows, &mut heard, lines, &buf[at..end])?;
            let stage = heard.stage;
            if is_stopped(stage) {
                return Ok(Attended {
                    length: came,
                    heard,
                });
            }
            at = end + 1;
        } else {
            let length = read_more(rt, from, b"standard input", &mut *buf, came)?;
            if length == came {
                hear_end(rt, plan, table, rows, &mut heard, lines, at, &buf[..came])?;
                return Ok(Attended {
                    length: came,
                    heard,
                });
            }
            came = length;
        }
    }
}
