// Runs stored cases: each file that an argument names is a row of cases, and each case gives a line.
// In a file a case is six numbers of four bytes each, then a text that stands in front of its line, a plan and a table. The numbers:
// what to do (0: read the plan; 1: make its table; 2: check the table by the plan; 3: make its table for consumers), how many frame rows are lent, how many bytes are
// lent for a table, and the lengths of text, plan and table. tests/src/stored.rs writes the files, and what each line must be.
#![tactic(auto)]

ghost use Rattle.std.specs.Prelude.{◌<◌, ◌≤◌, ◌≡◌, length};

use lines::{say, say_left, say_refusal, say_rows, say_table};
use little::read32;
use manners::has_argument;
use units::Frame;

mod lines;

// What stands in the buffer before a table is made.
const OLD: u8 = 165;

// How many bytes from a place on are as they were.
fn kept(buf: &[u8], from: usize) -> u64 {
    let mut count: u64 = 0;
    for byte in buf.get(from..).unwrap_or(&[]) {
        count += u64::from(*byte == OLD);
    }
    count
}

fn is_zero(task: u8, release: u32, deadline: u32, start: u32) -> bool {
    task == 0 && release == 0 && deadline == 0 && start == 0
}

fn zeros(
    tasks: &[u8; Frame::MOST],
    releases: &[u32; Frame::MOST],
    deadlines: &[u32; Frame::MOST],
    starts: &[u32; Frame::MOST],
) -> u64 {
    let mut count: u64 = 0;
    for k in 0..Frame::MOST {
        count += u64::from(is_zero(tasks[k], releases[k], deadlines[k], starts[k]));
    }
    count
}

fn read(rt: HostRuntime, plan: &[u8]) {
    match planrules::read(plan) {
        Ok(_) => say(rt, b"sound"),
        Err(why) => say_refusal(rt, why),
    }
}

fn make_in(rt: HostRuntime, plan: &[u8], edition: u8, lent: usize, buf: &mut [u8]) {
    let mut tasks = [0; Frame::MOST];
    let mut releases = [0; Frame::MOST];
    let mut deadlines = [0; Frame::MOST];
    let mut starts = [0; Frame::MOST];
    let made = maker::made(
        plan,
        edition,
        lent,
        &mut *buf,
        &mut tasks,
        &mut releases,
        &mut deadlines,
        &mut starts,
    );
    let answer = made.answer;
    let mut end = 0;
    match answer {
        Ok(length) => {
            say_table(rt, buf, length);
            say(rt, b" rows");
            say_rows(rt, made.frames, &tasks, &releases, &deadlines, &starts);
            end = length;
        }
        Err(why) => say_refusal(rt, why),
    }
    say_left(
        rt,
        kept(buf, end),
        zeros(&tasks, &releases, &deadlines, &starts),
    );
}

// No table is longer than the buffer.
fn make(rt: HostRuntime, plan: &[u8], edition: u8, lent: usize, room: usize) {
    let mut buf = [OLD; 16384];
    if room <= 16384 {
        make_in(rt, plan, edition, lent, &mut buf[..room]);
    }
}

// Rows that a refusal left would be said too.
fn check(rt: HostRuntime, plan: &[u8], table: &[u8], lent: usize) {
    let mut tasks = [0; Frame::MOST];
    let mut releases = [0; Frame::MOST];
    let mut deadlines = [0; Frame::MOST];
    let mut starts = [0; Frame::MOST];
    let checked = checker::check(
        plan,
        table,
        lent,
        &mut tasks,
        &mut releases,
        &mut deadlines,
        &mut starts,
    );
    let answer = checked.answer;
    match answer {
        Ok(()) => say(rt, b"passed rows"),
        Err(why) => say_refusal(rt, why),
    }
    say_rows(rt, checked.frames, &tasks, &releases, &deadlines, &starts);
}

fn run(rt: HostRuntime, what: u32, plan: &[u8], table: &[u8], lent: usize, room: usize) {
    match what {
        0 => read(rt, plan),
        1 => make(rt, plan, maker::BASIC, lent, room),
        2 => check(rt, plan, table, lent),
        3 => make(rt, plan, maker::CONSUMERS, lent, room),
        _ => {}
    }
    say(rt, b"\n");
}

fn number(file: &[u8], at: usize) -> usize
    ensures { result < 4294967296 }
{
    read32(file, at) as usize
}

// Runs the case that begins at a place, and answers where the next one begins.
fn one(rt: HostRuntime, file: &[u8], at: usize) -> usize
    requires { at < length file.now }
    ensures { at < result }
{
    let text = at + 24;
    let plan = text + number(file, at + 12);
    let table = plan + number(file, at + 16);
    let end = table + number(file, at + 20);
    if end <= file.len() {
        say(rt, &file[text..plan]);
        let what = read32(file, at);
        let lent = number(file, at + 4);
        let room = number(file, at + 8);
        run(rt, what, &file[plan..table], &file[table..end], lent, room);
    } else {
        say(rt, b"cut short\n");
    }
    end
}

fn all(rt: HostRuntime, file: &[u8]) {
    let mut at = 0;
    while at < file.len() {
        at = one(rt, file, at);
    }
}

// Room for a file of cases.
fn no_cases() -> [u8; 524288]
    ensures { 524288 ≡ length result }
{
    [0; 524288]
}

// The cases of the file that an argument names.
fn run_file(rt: HostRuntime, i: usize) {
    let mut file = no_cases();
    if let Ok(length) = input::read_argument(rt, i, b"CASES", &mut file) {
        all(rt, &file[..length]);
    }
}

fn main(rt: HostRuntime) {
    for i in 1..usize::MAX {
        if !has_argument(rt, i) {
            return;
        }
        run_file(rt, i);
    }
}
