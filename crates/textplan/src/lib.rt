// Reads a plan's text from standard input and writes the plan's bytes, or one line: `unreadable line L: REASON`, or `too long`.
#![tactic(auto)]

ghost use Rattle.std.specs.Prelude.{◌≡◌, ◌≤◌, length};
ghost use Rattle.std.proofs.lemmas.List.Edits.{sets};
ghost use Rattle.io.specs.Counts.{IsPrefixLen};
ghost use Rattle.manners.specs.Status.{number_of};
ghost use Rattle.planwords.specs.TextPlan.{unreadable_text};
ghost use Rattle.textplan.specs.Answer.{answer_for, status_for};

use manners::{Failed, Response, Status, put_lines};
use planitems::put_reason;
use planreader::{Unread, Unreadable};
use text::{put_bytes, put_marked, put_too_long};

// The line `unreadable line L: REASON` at the front of the buffer; its length.
fn put_unreadable(out: &mut [u8], unread: Unreadable) -> usize
    ensures out_after { (out.new ≡ sets out.old 0 (unreadable_text unread.line unread.why)) × (result ≡ length (unreadable_text unread.line unread.why)) }
    ensures few { result ≤ 64 }
{
    let colon_at = put_marked(&mut *out, 0, b"unreadable line ", unread.line);
    let why_at = put_bytes(&mut *out, colon_at, b": ");
    let end = put_reason(&mut *out, why_at, unread.why);
    put_bytes(&mut *out, end, b"\n")
}

// The answer at the front of `out`, which has room for the longest plan that is read, and how the program ends.
fn respond(lines: &[u8], out: &mut [u8]) -> Response
    requires { 262145 ≤ length out.old }
    ensures out_after { (out.new ≡ sets out.old 0 (answer_for lines.now)) × (result.length ≡ length (answer_for lines.now)) }
    ensures status_value { number_of result.status ≡ status_for lines.now }
    ensures prefix_len { IsPrefixLen result.length out.new }
{
    match planreader::read(lines, &mut *out) {
        Ok(length) => Response::done(length),
        Err(Unread::Unreadable(line)) => Response::refused(put_unreadable(&mut *out, line)),
        Err(Unread::TooLong) => Response::refused(put_too_long(&mut *out)),
        // No plan that is read is longer than what is lent.
        Err(Unread::Needs(bytes)) => Response::refused(bytes),
    }
}

fn read(rt: HostRuntime) -> Result<Status, Failed> {
    let mut lines = input::text_room();
    let n = input::read_open(rt, &mut rt.stdin(), b"standard input", &mut lines)?;
    let mut out = input::text_room();
    let answer = respond(&lines[..n], &mut out);
    manners::end_with(rt, &out[..answer.length], answer.status)
}

// What `--help` says behind the usage.
fn put_help(out: &mut [u8]) -> usize
    ensures { 4096 ≤ length out.old → IsPrefixLen result out.new }
{
    let status_at = put_lines(
        &mut *out,
        0,
        b"Reads a plan's text, as `plantext` prints it or as it was written by hand, from standard\ninput, and writes the plan's bytes to standard output. Where a line cannot be read, the\nline `unreadable line L: REASON` is written in their place, where L counts the lines of\nthe text from 1; `too long`, where the text has more than 262144 bytes. Whether the plan\nis any good is for `bustable` to say.\n",
    );
    put_lines(
        &mut *out,
        status_at,
        b"Exit status:\n  0: the plan was written\n  1: unreadable, or too long\n  2: wrong usage, no input to read, or a write that failed; standard error says which",
    )
}

// The program, and how it ends.
pub fn run(rt: HostRuntime) -> Result<Status, Failed> {
    let mut help = io::buffer();
    let end = put_help(&mut help);
    let opened = manners::opening(
        rt,
        b"textplan",
        b"textplan < TEXT > PLAN",
        &help[..end],
        1,
        0,
    );
    match opened {
        Some(ended) => ended,
        None => read(rt),
    }
}
