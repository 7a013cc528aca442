// Reads a sheet from standard input and writes the table's bytes, or one line: `unreadable line L`, or `too long`.
#![tactic(auto)]

ghost use Rattle.std.specs.Prelude.{◌≡◌, ◌≤◌, length};
ghost use Rattle.std.proofs.lemmas.List.Edits.{sets};
ghost use Rattle.io.specs.Counts.{IsPrefixLen};
ghost use Rattle.manners.specs.Status.{number_of};
ghost use Rattle.rules.specs.Table.{longest_table};
ghost use Rattle.sheettable.specs.Answer.{answer_for, status_for};

use manners::{Failed, Response, Status, put_lines};
use sheetreader::NoTable;
use units::ByteCount;

// The answer at the front of `out`, which has room for the longest table, and how the program ends.
fn respond(sheet: &[u8], out: &mut [u8]) -> Response
    requires { longest_table ≤ length out.old }
    ensures out_after { (out.new ≡ sets out.old 0 (answer_for sheet.now)) × (result.length ≡ length (answer_for sheet.now)) }
    ensures status_value { number_of result.status ≡ status_for sheet.now }
    ensures prefix_len { IsPrefixLen result.length out.new }
{
    if sheet.len() > ByteCount::LONGEST_SHEET {
        return Response::refused(text::put_too_long(&mut *out));
    }
    match sheetreader::read_back(sheet, &mut *out) {
        Ok(length) => Response::done(length),
        Err(NoTable::Unreadable(line)) => Response::refused(text::put_unreadable(&mut *out, line)),
        // No table that is read is longer than what is lent.
        Err(NoTable::Needs(bytes)) => Response::refused(bytes),
    }
}

fn read(rt: HostRuntime) -> Result<Status, Failed> {
    let mut sheet = input::text_room();
    let n = input::read_open(rt, &mut rt.stdin(), b"standard input", &mut sheet)?;
    let mut out = [0u8; ByteCount::LONGEST_TABLE];
    let answer = respond(&sheet[..n], &mut out);
    manners::end_with(rt, &out[..answer.length], answer.status)
}

// What `--help` says behind the usage.
fn put_help(out: &mut [u8]) -> usize
    ensures { 4096 ≤ length out.old → IsPrefixLen result out.new }
{
    let status_at = put_lines(
        &mut *out,
        0,
        b"Reads a sheet, as `tablesheet` prints it or as it was changed by hand, from standard\ninput, and writes the table's bytes to standard output. Where a line cannot be read, the\nline `unreadable line L` is written in their place, where L counts the lines of the sheet\nfrom 1; `too long`, where the sheet has more than 262144 bytes. Whether the table is any\ngood is for `checktable` to say.\n",
    );
    put_lines(
        &mut *out,
        status_at,
        b"Exit status:\n  0: the table was written\n  1: unreadable, or too long\n  2: wrong usage, no input to read, or a write that failed; standard error says which",
    )
}

// The program, and how it ends.
pub fn run(rt: HostRuntime) -> Result<Status, Failed> {
    let mut help = io::buffer();
    let end = put_help(&mut help);
    let opened = manners::opening(
        rt,
        b"sheettable",
        b"sheettable < SHEET > TABLE",
        &help[..end],
        1,
        0,
    );
    match opened {
        Some(ended) => ended,
        None => read(rt),
    }
}
