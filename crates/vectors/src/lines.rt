// Lines: an answer and what is left of what was lent, as text on standard output.
ghost use Rattle.std.specs.Prelude.{◌≤◌};

use answers::Refusal;
use std::io::Print;
use units::Frame;

pub fn say(rt: HostRuntime, text: &[u8]) {
    let _ = rt.stdout().write_all(text);
}

fn say_number(rt: HostRuntime, before: &[u8], x: u64) {
    say(rt, before);
    let _ = rt.print(x);
}

pub fn say_refusal(rt: HostRuntime, why: Refusal) {
    say_number(rt, b"refused ", why.number() as u64);
    say_number(rt, b" at ", why.place() as u64);
}

// The bytes in front of `end`.
pub fn say_table(rt: HostRuntime, buf: &[u8], end: usize) {
    say(rt, b"table ");
    for byte in buf.iter().take(end) {
        let _ = print!(rt; "{byte:02x}");
    }
}

fn say_row(rt: HostRuntime, task: u8, release: u32, deadline: u32, start: u32) {
    say_number(rt, b" ", task as u64);
    say_number(rt, b",", release as u64);
    say_number(rt, b",", deadline as u64);
    say_number(rt, b",", start as u64);
}

pub fn say_rows(
    rt: HostRuntime,
    frames: usize,
    tasks: &[u8; Frame::MOST],
    releases: &[u32; Frame::MOST],
    deadlines: &[u32; Frame::MOST],
    starts: &[u32; Frame::MOST],
) {
    for k in 0..frames.min(Frame::MOST) {
        say_row(rt, tasks[k], releases[k], deadlines[k], starts[k]);
    }
}

// How many bytes of the buffer are as they were, and how many places of the lent arrays are zero.
pub fn say_left(rt: HostRuntime, bytes: u64, rows: u64) {
    say_number(rt, b" kept ", bytes);
    say_number(rt, b" zero ", rows);
}
