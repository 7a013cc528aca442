// Input as the programs take it: an open file or a named one, read into a lent buffer until that is full or the input ends.
#![tactic(auto)]

ghost use Rattle.std.specs.Prelude.{◌≡◌, length, take, IfOk};
ghost use Rattle.io.specs.Counts.{IsPrefixLen};
ghost use Rattle.input.specs.Room.{zeros};
ghost use Rattle.input.specs.Within.{Further};

use manners::{Failed, fail, own_name};
use std::fs::File;
use std::io::{Error, Read};
use std::rt::Env;

// What Linux calls a name that is too long (ENAMETOOLONG), and bytes that are no text (EILSEQ).
const NAME_TOO_LONG: i32 = 36;

const NO_TEXT: i32 = 84;

// Room for a plan or a table, and for one byte more than the longest has, so that a longer file is seen to be longer.
pub fn file_room() -> [u8; 65537]
    ensures { (result ≡ zeros 65537) × (65537 ≡ length result) }
{
    [0; 65537]
}

// The same for a text: a history, or a sheet.
pub fn text_room() -> [u8; 262145]
    ensures { (result ≡ zeros 262145) × (262145 ≡ length result) }
{
    [0; 262145]
}

// Reads until the buffer is full or the input ends; how many bytes stand at its front then.
fn read_full<R: Read>(from: &mut R, buf: &mut [u8]) -> std::io::Result<usize>
    ensures { IfOk result (λ n. IsPrefixLen n buf.new) }
{
    let mut done = 0;
    while done < buf.len() {
        match from.read(&mut buf[done..])? {
            0 => return Ok(done),
            more => done += more,
        }
    }
    Ok(done)
}

// Tells standard error why there is no input: it could not be opened, or a read failed.
fn unreadable(rt: HostRuntime, what: &[u8], why: &Error) -> Failed {
    let mut name = io::buffer();
    let named = own_name(rt, &mut name);
    fail(rt, &name[..named], what, why);
    Failed
}

// How many bytes stand at the front of the buffer when the input has ended or the buffer is full.
pub fn read_open<R: Read>(
    rt: HostRuntime,
    from: &mut R,
    what: &[u8],
    buf: &mut [u8],
) -> Result<usize, Failed>
    ensures { IfOk result (λ n. IsPrefixLen n buf.new) }
{
    read_full(from, &mut *buf).map_err(|why| unreadable(rt, what, &why))
}

// One read, of as much as has come, into the buffer from a place on, where so many bytes stand at its front already, and stay. No byte
// more comes where the input ends, and where the buffer has no room.
pub fn read_more<R: Read>(
    rt: HostRuntime,
    from_input: &mut R,
    what: &[u8],
    buf: &mut [u8],
    from: usize,
) -> Result<usize, Failed>
    ensures buf_unchanged { (take from buf.new ≡ take from buf.old) × (length buf.new ≡ length buf.old) }
    ensures more { IfOk result (λ n. Further from n buf.new) }
{
    if buf.len() <= from {
        return Ok(from);
    }
    let got = from_input
        .read(&mut buf[from..])
        .map_err(|why| unreadable(rt, what, &why))?;
    Ok(from + got)
}

pub fn read_named(rt: HostRuntime, path: &[u8], buf: &mut [u8]) -> Result<usize, Failed>
    ensures { IfOk result (λ n. IsPrefixLen n buf.new) }
{
    let mut file = opened(rt, path).map_err(|why| unreadable(rt, path, &why))?;
    read_open(rt, &mut file, path, buf)
}

// The file with this name. A name that is no text cannot be asked for: the library opens files by names in UTF-8 alone.
fn opened(rt: HostRuntime, path: &[u8]) -> std::io::Result<File> {
    let name = str::from_utf8(path).map_err(|_| Error::from_raw_os_error(NO_TEXT))?;
    File::open(&rt, name)
}

// The file that an argument names; `what` says on standard error which argument could not be had, as one that is too long for a path.
pub fn read_argument(
    rt: HostRuntime,
    i: usize,
    what: &[u8],
    buf: &mut [u8],
) -> Result<usize, Failed>
    ensures { IfOk result (λ n. IsPrefixLen n buf.new) }
{
    let mut path = io::buffer();
    let length = rt.arg(i, &mut path).map_err(|_| unreadable(
        rt,
        what,
        &Error::from_raw_os_error(NAME_TOO_LONG),
    ))?;
    read_named(rt, &path[..length], buf)
}
