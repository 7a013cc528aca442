// Writes the sheet of a table file by a plan file, both named on the command line, with the line of a refusal on top or alone; or `too long`.
#![tactic(auto)]

ghost use Rattle.std.specs.Prelude.{◌≡◌, ◌≤◌, length};
ghost use Rattle.std.proofs.lemmas.List.Edits.{sets};
ghost use Rattle.answers.specs.Answered.{judged};
ghost use Rattle.io.specs.Counts.{IsPrefixLen};
ghost use Rattle.manners.specs.Status.{number_of, status_of};
ghost use Rattle.rules.specs.Limits.{longest_sheet};
ghost use Rattle.tablesheet.specs.Answer.{answer_for, status_for};

use answers::Refusal;
use input::{file_room, read_argument, text_room};
use manners::{Failed, Response, Status, put_lines};
use meanings::put_help_lines;

// A text of so many bytes, and the status by the checker's answer.
fn ending(answer: Result<(), Refusal>, n: usize) -> Response
    ensures { (result.length ≡ n) × (number_of result.status ≡ status_of (judged answer)) }
{
    match answer {
        Ok(()) => Response::done(n),
        Err(_) => Response::refused(n),
    }
}

// The text at the front of `out`, and how the program ends. No sheet has more than 262,144 bytes.
fn respond(plan: &[u8], table: &[u8], out: &mut [u8]) -> Response
    ensures out_after { (out.new ≡ sets out.old 0 (answer_for plan.now table.now)) × (result.length ≡ length (answer_for plan.now table.now)) }
    ensures status_value { number_of result.status ≡ status_for plan.now table.now }
    ensures prefix_len { longest_sheet ≤ length out.old → IsPrefixLen result.length out.new }
{
    if plan.len() > 65536 {
        return Response::refused(text::put_too_long(&mut *out));
    }
    if table.len() > 65536 {
        return Response::refused(text::put_too_long(&mut *out));
    }
    let written = sheetwriter::write(plan, table, &mut *out);
    let answer = written.answer;
    ending(answer, written.length)
}

fn print(rt: HostRuntime) -> Result<Status, Failed> {
    let mut plan = file_room();
    let n = read_argument(rt, 1, b"PLAN", &mut plan)?;
    let mut table = file_room();
    let m = read_argument(rt, 2, b"TABLE", &mut table)?;
    let mut out = text_room();
    let answer = respond(&plan[..n], &table[..m], &mut out);
    manners::end_with(rt, &out[..answer.length], answer.status)
}

// What `--help` says behind the usage.
fn put_help(out: &mut [u8]) -> usize
    ensures { 4096 ≤ length out.old → IsPrefixLen result out.new }
{
    let status_at = put_lines(
        &mut *out,
        0,
        b"Prints the table in the file TABLE as a sheet: a line for each row, with its window by\nthe plan in the file PLAN, and how far the row lies from both of its ends. The sheet goes\nto standard output. A table that the checker refuses with 25 to 28 has a sheet too, below\nthe line `refused N at P`; of any other refusal there is this line alone, where N is a\nnumber of the list below and P the place that its words explain; or the line `too long`,\nwhere one of the files has more than 65536 bytes.\n",
    );
    let refusals_at = put_lines(
        &mut *out,
        status_at,
        b"Exit status:\n  0: the table passes, and its sheet was written\n  1: refused, with a sheet or without, or too long\n  2: wrong usage, a file that cannot be read, or a write that failed; standard error\n     says which\n",
    );
    let first_at = put_lines(&mut *out, refusals_at, b"Refusals:");
    let table_at = put_help_lines(&mut *out, first_at, 1, 11);
    put_help_lines(&mut *out, table_at, 20, 9)
}

// The program, and how it ends.
pub fn run(rt: HostRuntime) -> Result<Status, Failed> {
    let mut help = io::buffer();
    let end = put_help(&mut help);
    let opened = manners::opening(
        rt,
        b"tablesheet",
        b"tablesheet PLAN TABLE",
        &help[..end],
        1,
        2,
    );
    match opened {
        Some(ended) => ended,
        None => print(rt),
    }
}
