// Checks a table file by a plan file, both named on the command line, and writes one line: `passed`, `refused N at P`, or `too long`.
#![tactic(auto)]

ghost use Rattle.std.specs.Prelude.{◌≡◌, ◌≤◌, length};
ghost use Rattle.std.proofs.lemmas.List.Edits.{sets};
ghost use Rattle.io.specs.Counts.{IsPrefixLen};
ghost use Rattle.manners.specs.Status.{number_of};
ghost use Rattle.checktable.specs.Answer.{answer_for, status_for};

use input::{file_room, read_argument};
use manners::{Failed, Response, Status, put_lines};
use meanings::put_help_lines;
use units::Frame;

// The line at the front of `out`, and how the program ends. No line has more than 53 bytes.
fn respond(plan: &[u8], table: &[u8], out: &mut [u8]) -> Response
    ensures out_after { (out.new ≡ sets out.old 0 (answer_for plan.now table.now)) × (result.length ≡ length (answer_for plan.now table.now)) }
    ensures status_value { number_of result.status ≡ status_for plan.now table.now }
    ensures prefix_len { 53 ≤ length out.old → IsPrefixLen result.length out.new }
{
    if plan.len() > 65536 {
        return Response::refused(text::put_too_long(&mut *out));
    }
    if table.len() > 65536 {
        return Response::refused(text::put_too_long(&mut *out));
    }
    let mut tasks: [u8; Frame::MOST] = [0; Frame::MOST];
    let mut releases: [u32; Frame::MOST] = [0; Frame::MOST];
    let mut deadlines: [u32; Frame::MOST] = [0; Frame::MOST];
    let mut starts: [u32; Frame::MOST] = [0; Frame::MOST];
    let checked = checker::check(
        plan,
        table,
        Frame::MOST,
        &mut tasks,
        &mut releases,
        &mut deadlines,
        &mut starts,
    );
    match checked.answer {
        Ok(()) => Response::done(text::put_passed(&mut *out)),
        Err(why) => { Response::refused(text::put_refused(&mut *out, why.number(), why.place())) }
    }
}

fn check(rt: HostRuntime) -> Result<Status, Failed> {
    let mut plan = file_room();
    let n = read_argument(rt, 1, b"PLAN", &mut plan)?;
    let mut table = file_room();
    let m = read_argument(rt, 2, b"TABLE", &mut table)?;
    let mut out = [0u8; 64];
    let answer = respond(&plan[..n], &table[..m], &mut out);
    manners::end_with(rt, &out[..answer.length], answer.status)
}

// What `--help` says behind the usage.
fn put_help(out: &mut [u8]) -> usize
    ensures { 4096 ≤ length out.old → IsPrefixLen result out.new }
{
    let status_at = put_lines(
        &mut *out,
        0,
        b"Judges the table in the file TABLE by the plan in the file PLAN, and writes one line to\nstandard output: `passed`; or `refused N at P`, where N is the first number of the list\nbelow that applies and P the place that its words explain; or `too long`, where one of\nthe files has more than 65536 bytes.\n",
    );
    let refusals_at = put_lines(
        &mut *out,
        status_at,
        b"Exit status:\n  0: the table passes\n  1: refused, or too long\n  2: wrong usage, a file that cannot be read, or a write that failed; standard error\n     says which\n",
    );
    let first_at = put_lines(&mut *out, refusals_at, b"Refusals:");
    let table_at = put_help_lines(&mut *out, first_at, 1, 11);
    put_help_lines(&mut *out, table_at, 20, 9)
}

// The program, and how it ends.
pub fn run(rt: HostRuntime) -> Result<Status, Failed> {
    let mut help = io::buffer();
    let end = put_help(&mut help);
    let opened = manners::opening(
        rt,
        b"checktable",
        b"checktable PLAN TABLE",
        &help[..end],
        1,
        2,
    );
    match opened {
        Some(ended) => ended,
        None => check(rt),
    }
}
