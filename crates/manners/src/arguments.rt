// The arguments of a program: `--help`, `--version`, options, and the number of the files.
use crate::{Failed, Status, argument, fail};
use std::env::FillError;
use std::io::{Print, Stderr, Stdout};
use std::rt::Env;

// Whether argument i is this word.
pub fn is_argument(rt: HostRuntime, i: usize, word: &[u8]) -> bool {
    let mut room = io::buffer();
    match rt.arg(i, &mut room) {
        Ok(length) => text::lines::is_word(&room[..length], word),
        Err(_) => false,
    }
}

// Whether there is an argument i, of whatever length.
pub fn has_argument(rt: HostRuntime, i: usize) -> bool {
    let mut room = [0u8; 1];
    match rt.arg(i, &mut room) {
        Ok(_) => true,
        Err(FillError::TooLong) => true,
        Err(FillError::NotPresent) => false,
    }
}

// How many arguments there are, with the program's own name.
fn argument_count(rt: HostRuntime) -> usize {
    (0..usize::MAX)
        .find(|i| !has_argument(rt, *i))
        .unwrap_or(usize::MAX)
}

fn any_argument(rt: HostRuntime, word: &[u8]) -> bool {
    (1..argument_count(rt)).any(|i| is_argument(rt, i, word))
}

// Whether argument i begins with `-`.
fn is_option(rt: HostRuntime, i: usize) -> bool {
    let mut room = io::buffer();
    argument(rt, i, &mut room);
    room[0] == b'-'
}

fn write_usage<P: Print>(to: &P, usage: &[u8]) -> std::io::Result<()> {
    to.write_all(b"usage: ")?;
    to.write_all(usage)?;
    to.write_all(b"\n")
}

// The usage, a blank line and the help.
fn put_help(to: &Stdout, usage: &[u8], help: &[u8]) -> std::io::Result<()> {
    write_usage(to, usage)?;
    to.write_all(b"\n")?;
    to.write_all(help)
}

fn put_version(to: &Stdout, name: &[u8]) -> std::io::Result<()> {
    to.write_all(name)?;
    // `.ci/version` writes the number here.
    to.write_all(b" 0.9.0\n")
}

// How a program ends that has written so to standard output.
fn ended(rt: HostRuntime, name: &[u8], written: std::io::Result<()>) -> Result<Status, Failed> {
    match written {
        Ok(()) => Ok(Status::Done),
        Err(why) => {
            fail(rt, name, b"standard output", &why);
            Err(Failed)
        }
    }
}

fn put_complaint(
    to: &Stderr,
    name: &[u8],
    what: &[u8],
    word: &[u8],
    usage: &[u8],
) -> std::io::Result<()> {
    to.write_all(name)?;
    to.write_all(what)?;
    to.write_all(word)?;
    to.write_all(b"\n")?;
    write_usage(to, usage)
}

fn complain(rt: HostRuntime, name: &[u8], what: &[u8], word: &[u8], usage: &[u8]) -> Failed {
    let _ = put_complaint(&rt.stderr(), name, what, word, usage);
    Failed
}

fn unknown_option(rt: HostRuntime, name: &[u8], i: usize, usage: &[u8]) -> Failed {
    let mut word = io::buffer();
    let length = argument(rt, i, &mut word);
    complain(rt, name, b": unknown option ", &word[..length], usage)
}

// The first look at the arguments: how the program ends that has said all there is to say, or nothing, where it has work to do. `--help`
// anywhere writes usage and help, `--version` anywhere name and version. Behind the options that the program knows itself, from argument
// `first` on, stand so many names of files, none of which begins with `-`; anything else is wrong usage. `usage` is a line without its end,
// `help` whole lines.
pub fn opening(
    rt: HostRuntime,
    name: &[u8],
    usage: &[u8],
    help: &[u8],
    first: usize,
    files: usize,
) -> Option<Result<Status, Failed>> {
    if any_argument(rt, b"--help") {
        return Some(ended(rt, name, put_help(&rt.stdout(), usage, help)));
    }
    if any_argument(rt, b"--version") {
        return Some(ended(rt, name, put_version(&rt.stdout(), name)));
    }
    let count = argument_count(rt);
    if let Some(option) = (first..count).find(|i| is_option(rt, *i)) {
        return Some(Err(unknown_option(rt, name, option, usage)));
    }
    if count < first || count - first < files {
        return Some(Err(complain(rt, name, b": too few arguments", b"", usage)));
    }
    if count - first > files {
        return Some(Err(complain(rt, name, b": too many arguments", b"", usage)));
    }
    None
}
