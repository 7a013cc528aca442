// Reads a plan from standard input and writes the table's bytes, or one line that says why there is none.
#![tactic(auto)]

ghost use Rattle.std.specs.Prelude.{◌≡◌, ◌≤◌, length};
ghost use Rattle.std.proofs.lemmas.List.Edits.{sets};
ghost use Rattle.io.specs.Counts.{IsPrefixLen};
ghost use Rattle.manners.specs.Status.{number_of};
ghost use Rattle.bustable.specs.Answer.{answer_for, status_for};

use manners::{Failed, Response, Status, is_argument, put_lines};
use meanings::put_help_lines;
use units::{ByteCount, Frame};

// The answer at the front of `out`, and how the program ends. No line has more than 53 bytes.
fn respond(plan: &[u8], consumers: bool, out: &mut [u8]) -> Response
    ensures out_after { (out.new ≡ sets out.old 0 (answer_for consumers (length out.old) plan.now)) × (result.length ≡ length (answer_for consumers (length out.old) plan.now)) }
    ensures status_value { number_of result.status ≡ status_for consumers (length out.old) plan.now }
    ensures prefix_len { 53 ≤ length out.old → IsPrefixLen result.length out.new }
{
    if plan.len() > 65536 {
        return Response::refused(text::put_too_long(&mut *out));
    }
    let mut tasks = [0u8; Frame::MOST];
    let mut releases = [0u32; Frame::MOST];
    let mut deadlines = [0u32; Frame::MOST];
    let mut starts = [0u32; Frame::MOST];
    let made = maker::made(
        plan,
        maker::edition_of(consumers),
        Frame::MOST,
        &mut *out,
        &mut tasks,
        &mut releases,
        &mut deadlines,
        &mut starts,
    );
    match made.answer {
        Ok(length) => Response::done(length),
        Err(refusal) => {
            Response::refused(text::put_refused(&mut *out, refusal.number(), refusal.place()))
        }
    }
}

fn make(rt: HostRuntime, consumers: bool) -> Result<Status, Failed> {
    let mut plan = input::file_room();
    let n = input::read_open(rt, &mut rt.stdin(), b"standard input", &mut plan)?;
    let mut out = [0u8; ByteCount::LONGEST_TABLE];
    let answer = respond(&plan[..n], consumers, &mut out);
    manners::end_with(rt, &out[..answer.length], answer.status)
}

// What `--help` says behind the usage.
fn put_help(out: &mut [u8]) -> usize
    ensures { 4096 ≤ length out.old → IsPrefixLen result out.new }
{
    let status_at = put_lines(
        &mut *out,
        0,
        b"Makes the bus table of a plan. The plan's bytes are read from standard input, and the\ntable's bytes are written to standard output. Where there is no table, one line is\nwritten in its place: `refused N at P`, where N is a number of the list below and P the\nplace that its words explain, or `too long` where the plan has more than 65536 bytes.\n",
    );
    let refusals_at = put_lines(
        &mut *out,
        status_at,
        b"Options:\n  --consumers: leaves out each message that no run on another node reads\n\nExit status:\n  0: the table was written\n  1: refused, or too long\n  2: wrong usage, no input to read, or a write that failed; standard error says which\n",
    );
    let first_at = put_lines(&mut *out, refusals_at, b"Refusals:");
    put_help_lines(&mut *out, first_at, 1, 12)
}

// The program, and how it ends.
pub fn run(rt: HostRuntime) -> Result<Status, Failed> {
    let consumers = is_argument(rt, 1, b"--consumers");
    let mut help = io::buffer();
    let end = put_help(&mut help);
    let opened = manners::opening(
        rt,
        b"bustable",
        b"bustable [--consumers] < PLAN > TABLE",
        &help[..end],
        1 + usize::from(consumers),
        0,
    );
    match opened {
        Some(ended) => ended,
        None => make(rt, consumers),
    }
}
