// What every program does alike: its first look at the arguments, the write of its answer, messages on standard error, and the number that
// it ends with. Nothing here says which bytes were read or written: no contract can.
#![tactic(auto)]

ghost use Rattle.std.specs.Prelude.{length, ◌++◌, ◌≡◌, ◌+◌, ◌≤◌, IfOk};
ghost use Rattle.std.specs.Process.{exit_status};
ghost use Rattle.std.proofs.lemmas.List.Edits.{sets};
ghost use Rattle.io.specs.Counts.{IsPrefixLen};
ghost use Rattle.text.specs.Text.{line_feed};
ghost use Rattle.manners.specs.Status.{done, ending_of, number_of, refused};

use std::io::{Print, Write};
use std::process::ExitCode;
use std::rt::Env;

mod arguments;

pub use arguments::{has_argument, is_argument, opening};

// How a program ends that has answered.
#[derive(Clone, Copy, PartialEq, Eq)]
pub enum Status {
    // A result was written.
    Done,
    // A refusal, or that a file is too long or cannot be understood.
    Refused,
}

// Wrong usage, a file that cannot be read, or a write that failed; standard error has been told which.
#[derive(Clone, Copy, PartialEq, Eq)]
pub struct Failed;

// What a program ends with, for whoever called it.
pub fn exit_code(ended: Result<Status, Failed>) -> ExitCode
    ensures { exit_status result ≡ ending_of ended }
{
    let number: u8 = match ended {
        Ok(Status::Done) => 0,
        Ok(Status::Refused) => 1,
        Err(Failed) => 2,
    };
    ExitCode::from(number)
}

// What a program answers: the length of what it writes, and how it ends.
#[derive(Clone, Copy)]
pub struct Response {
    pub length: usize,
    pub status: Status,
}

impl Response {
    pub fn done(n: usize) -> Response
        ensures { (result.length ≡ n) × (number_of result.status ≡ done) }
    {
        Response {
            length: n,
            status: Status::Done,
        }
    }

    pub fn refused(n: usize) -> Response
        ensures { (result.length ≡ n) × (number_of result.status ≡ refused) }
    {
        Response {
            length: n,
            status: Status::Refused,
        }
    }
}

// Where the last part of a path begins: behind its last `/`.
fn behind_slash(path: &[u8]) -> usize
    ensures { result ≤ length path.now }
{
    match path.iter().rposition(|byte| *byte == b'/') {
        Some(slash) => slash + 1,
        None => 0,
    }
}

// An argument at the front of `word`; its length, or 0 where there is none or it does not fit.
pub fn argument(rt: HostRuntime, i: usize, word: &mut [u8]) -> usize
    ensures { IsPrefixLen result word.new }
{
    rt.arg(i, &mut *word).unwrap_or(0)
}

// The program's own name at the front of `name`, as it was called but without folders; its length, or 0 where it does not fit.
pub fn own_name(rt: HostRuntime, name: &mut [u8]) -> usize
    ensures { IsPrefixLen result name.new }
{
    let mut path = io::buffer();
    let length = argument(rt, 0, &mut path);
    let start = behind_slash(&path[..length]);
    let end = text::put_bytes(&mut *name, 0, &path[start..length]);
    if end <= name.len() { end } else { 0 }
}

// Lines of a program's help from `at` on, with the last one's end; the place behind them.
pub fn put_lines(out: &mut [u8], at: usize, lines: &[u8]) -> usize
    requires { (at ≤ 65536) × (length lines.now ≤ 600) }
    ensures out_after { (out.new ≡ sets out.old at (lines.now ++ line_feed)) × (result ≡ at + length (lines.now ++ line_feed)) }
    ensures few { result ≤ at + 601 }
{
    let end = text::put_bytes(&mut *out, at, lines);
    text::put_bytes(&mut *out, end, b"\n")
}

// What the system says of an error, at the front of `out`, with its number in brackets behind it; its length.
fn put_why(why: &std::io::Error, out: &mut [u8; 320]) -> usize
    ensures { result ≤ 320 }
{
    let mut rest: &mut [u8] = out;
    let _ = write!(rest, "{why}");
    320usize.saturating_sub(rest.len())
}

// Stands in front of the number of an error.
const NUMBER_MARK: &[u8] = b" (os error ";

// Where the number of an error begins, behind what is said of it; all of the text where it has none.
fn number_start(text: &[u8]) -> usize
    ensures { result ≤ length text.now }
{
    text.windows(NUMBER_MARK.len())
        .position(|part| part == NUMBER_MARK)
        .unwrap_or(text.len())
}

// Tells standard error what failed, and why.
pub fn fail(rt: HostRuntime, name: &[u8], what: &[u8], why: &std::io::Error) {
    let error = rt.stderr();
    let mut text = [0u8; 320];
    let length = put_why(why, &mut text);
    let end = number_start(&text[..length]);
    let _ = error.write_all(name);
    let _ = error.write_all(b": ");
    let _ = error.write_all(what);
    let _ = error.write_all(b": ");
    let _ = error.write_all(&text[..end]);
    let _ = error.write_all(b"\n");
}

// Writes the answer to standard output; the number that was given, where it was written.
pub fn write_out(rt: HostRuntime, answer: &[u8], status: i32) -> Result<i32, Failed>
    ensures { IfOk result (λ ended. ended ≡ status) }
{
    let mut name = io::buffer();
    let named = own_name(rt, &mut name);
    match rt.stdout().write_all(answer) {
        Ok(()) => Ok(status),
        Err(why) => {
            fail(rt, &name[..named], b"standard output", &why);
            Err(Failed)
        }
    }
}

// Writes the answer that a program ends with; how it ends, where it was written.
pub fn end_with(rt: HostRuntime, answer: &[u8], status: Status) -> Result<Status, Failed>
    ensures { IfOk result (λ ended. ended ≡ status) }
{
    write_out(rt, answer, 0)?;
    Ok(status)
}
