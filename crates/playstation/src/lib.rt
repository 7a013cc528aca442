// Plays a history, which comes on standard input, on a station that begins with a plan file and a table file, both named on the command
// line, and answers each line when it has come (docs/HISTORY.md).
#![tactic(auto)]

ghost use Rattle.std.specs.Prelude.{◌≡◌, ◌≤◌, length};
ghost use Rattle.std.proofs.lemmas.List.Edits.{sets};
ghost use Rattle.io.specs.Counts.{IsPrefixLen};
ghost use Rattle.manners.specs.Status.{number_of};
ghost use Rattle.playstation.specs.Closing.{closing_status, closing_text, end_status, end_text};

use hearing::{LONGEST, Stage, attend};
use input::{file_room, read_argument, text_room};
use manners::{Failed, Response, Status, end_with, is_argument, put_lines};
use meanings::put_help_lines;
use text::{put_too_long, put_unreadable};

// What is said at the end of a history of which so many bytes came, and how the program ends; `begun`: the station has begun.
fn ended(out: &mut [u8], came: usize, begun: bool) -> Response
    ensures out_after { (out.new ≡ sets out.old 0 (end_text came)) × (result.length ≡ length (end_text came)) }
    ensures status_value { number_of result.status ≡ end_status came begun }
    ensures few { result.length ≤ 41 }
{
    if came > LONGEST {
        return Response::refused(put_too_long(out));
    }
    if begun {
        return Response::done(0);
    }
    Response::refused(0)
}

// The same, where a line may have stopped the history.
fn closing(out: &mut [u8], came: usize, stage: Stage) -> Response
    ensures out_after { (out.new ≡ sets out.old 0 (closing_text came stage)) × (result.length ≡ length (closing_text came stage)) }
    ensures status_value { number_of result.status ≡ closing_status came stage }
    ensures few { result.length ≤ 41 }
{
    match stage {
        Stage::Waits => ended(out, came, true),
        Stage::Plays(begun) => ended(out, came, begun),
        Stage::Stops(line) => Response::refused(put_unreadable(out, line)),
    }
}

fn finish(rt: HostRuntime, came: usize, stage: Stage) -> Result<Status, Failed> {
    let mut out = [0u8; 64];
    let closed = closing(&mut out, came, stage);
    end_with(rt, &out[..closed.length], closed.status)
}

fn too_long(rt: HostRuntime) -> Result<Status, Failed> {
    let mut out = [0u8; 64];
    let length = put_too_long(&mut out);
    end_with(rt, &out[..length], Status::Refused)
}

fn play(rt: HostRuntime, plan: &[u8], table: &[u8], rows: bool) -> Result<Status, Failed> {
    if plan.len() > 65536 || table.len() > 65536 {
        return too_long(rt);
    }
    let mut history = text_room();
    let attended = attend(rt, plan, table, rows, &mut rt.stdin(), &mut history)?;
    let heard = attended.heard;
    finish(rt, attended.length, heard.stage)
}

// The files are named by these arguments.
fn answer(rt: HostRuntime, plan_at: usize, table_at: usize, rows: bool) -> Result<Status, Failed> {
    let mut plan = file_room();
    let n = read_argument(rt, plan_at, b"PLAN", &mut plan)?;
    let mut table = file_room();
    let m = read_argument(rt, table_at, b"TABLE", &mut table)?;
    play(rt, &plan[..n], &table[..m], rows)
}

// What `--help` says behind the usage.
fn put_help(out: &mut [u8]) -> usize
    ensures { 8192 ≤ length out.old → IsPrefixLen result out.new }
{
    let options_at = put_lines(
        &mut *out,
        0,
        b"Plays the history on standard input on a station with the plan in the file PLAN and the\ntable in the file TABLE, and answers each line as soon as it has come. A history has a\nline `begin MODULE=MODE ..`, then lines `tick results TASK=VALUE .. modes MODULE=MODE ..`\n(`-` for none) and `quiet N`; what stands behind # is left out. Answers are `begun`,\n`shown NODE/TASK=VALUE ..`, `after K` for the K-th of quiet ticks, `refused N at P`,\n`unreadable line L` and `too long`.\n",
    );
    let first_at = put_lines(
        &mut *out,
        options_at,
        b"Options:\n  --rows: says too which row of the table starts at a tick\n\nExit status:\n  0: the history was played to its end, also with ticks that were refused\n  1: the beginning was refused, a line cannot be read, or something is too long\n  2: wrong usage, a file that cannot be read, or a write that failed; standard error\n     says which\n\nRefusals:",
    );
    let table_at = put_help_lines(&mut *out, first_at, 1, 11);
    let station_at = put_help_lines(&mut *out, table_at, 20, 9);
    put_help_lines(&mut *out, station_at, 40, 5)
}

// The program, and how it ends.
pub fn run(rt: HostRuntime) -> Result<Status, Failed> {
    let rows = is_argument(rt, 1, b"--rows");
    let first = 1 + usize::from(rows);
    let mut help = io::large_buffer();
    let end = put_help(&mut help);
    let opened = manners::opening(
        rt,
        b"playstation",
        b"playstation [--rows] PLAN TABLE < HISTORY",
        &help[..end],
        first,
        2,
    );
    match opened {
        Some(ended) => ended,
        None => answer(rt, first, first + 1, rows),
    }
}
