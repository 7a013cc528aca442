// Reads a plan from standard input and writes it as text, or one line: `refused 1 at P`, or `too long`.
#![tactic(auto)]

ghost use Rattle.std.specs.Prelude.{◌≡◌, ◌≤◌, ◌<◌, length};
ghost use Rattle.std.proofs.lemmas.List.Edits.{sets};
ghost use Rattle.io.specs.Counts.{IsPrefixLen};
ghost use Rattle.manners.specs.Status.{number_of};
ghost use Rattle.input.specs.Room.{zeros};
ghost use Rattle.text.specs.Text.{refused_line};
ghost use Rattle.plantext.specs.Answer.{answer_for, longest_text, status_for};

use manners::{Failed, Response, Status, put_lines};
use meanings::put_help_lines;
use planwriter::Unprinted;
use text::{put_refused, put_too_long};

// Room for the longest text: 42 bytes for each of the longest plan.
fn longest_room() -> [u8; 2752512]
    ensures { (result ≡ zeros longest_text) × (longest_text ≡ length result) }
{
    [0; 2752512]
}

// The line `refused 1 at P` at the front of the buffer; its length.
fn put_refusal(out: &mut [u8], place: usize) -> usize
    ensures out_after { (out.new ≡ sets out.old 0 (refused_line 1 place)) × (result ≡ length (refused_line 1 place)) }
    ensures few { result ≤ 53 }
{
    put_refused(out, 1, place)
}

// The answer at the front of `out`, which has room for the longest text, and how the program ends.
fn respond(plan: &[u8], out: &mut [u8]) -> Response
    requires { longest_text ≤ length out.old }
    ensures out_after { (out.new ≡ sets out.old 0 (answer_for plan.now)) × (result.length ≡ length (answer_for plan.now)) }
    ensures status_value { number_of result.status ≡ status_for plan.now }
    ensures prefix_len { IsPrefixLen result.length out.new }
{
    match planwriter::print(plan, &mut *out) {
        Ok(length) => Response::done(length),
        Err(Unprinted::Refused(place)) => Response::refused(put_refusal(&mut *out, place.0)),
        Err(Unprinted::TooLong) => Response::refused(put_too_long(&mut *out)),
        // No text is longer than what is lent.
        Err(Unprinted::Needs(bytes)) => Response::refused(bytes),
    }
}

fn print(rt: HostRuntime) -> Result<Status, Failed> {
    let mut plan = input::file_room();
    let n = input::read_open(rt, &mut rt.stdin(), b"standard input", &mut plan)?;
    let mut out = longest_room();
    let answer = respond(&plan[..n], &mut out);
    manners::end_with(rt, &out[..answer.length], answer.status)
}

// What `--help` says behind the usage.
fn put_help(out: &mut [u8]) -> usize
    ensures { 4096 ≤ length out.old → IsPrefixLen result out.new }
{
    let status_at = put_lines(
        &mut *out,
        0,
        b"Reads a plan from standard input and prints it as text to standard output: a line for\neach record, which `textplan` reads back to the same bytes. A plan is printed whatever\n`bustable` says of it. Where the bytes are no plan's records, the line `refused 1 at P` is\nwritten in the text's place; `too long`, where the plan has more than 65536 bytes.\n",
    );
    let refusals_at = put_lines(
        &mut *out,
        status_at,
        b"Exit status:\n  0: the text was written\n  1: refused, or too long\n  2: wrong usage, no input to read, or a write that failed; standard error says which\n\nRefusals:",
    );
    put_help_lines(&mut *out, refusals_at, 1, 1)
}

// The program, and how it ends.
pub fn run(rt: HostRuntime) -> Result<Status, Failed> {
    let mut help = io::buffer();
    let end = put_help(&mut help);
    let opened = manners::opening(
        rt,
        b"plantext",
        b"plantext < PLAN > TEXT",
        &help[..end],
        1,
        0,
    );
    match opened {
        Some(ended) => ended,
        None => print(rt),
    }
}
