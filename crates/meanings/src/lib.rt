// What each number of an answer means, put as text: the words that `meanings/Meanings` has.
#![tactic(auto)]

ghost use Rattle.std.specs.Prelude.{◌≡◌, ◌+◌, ◌*◌, ◌≤◌, length};
ghost use Rattle.std.proofs.lemmas.List.Edits.{sets};
ghost use Rattle.meanings.specs.Meanings.{help_line, help_lines, meaning, of_bus, of_making, of_records, of_station, of_table, of_text, unknown};

use text::{put_bytes, put_marked};

const UNKNOWN: &[u8] = b"no number of an answer";

// Rules 6.1 to 6.5: the plan's records.
#[tactic(auto, unfolding(crate::specs::Meanings::of_records))]
fn of_records(number: u32) -> &'static [u8]
    ensures words { result.now ≡ of_records number }
    ensures few { length result.now ≤ 100 }
{
    match number {
        0 => b"done",
        1 => b"these are not a plan's records; the place is the byte where they go wrong",
        2 => b"too few or too many things of a kind; the place is the kind",
        3 =>
            b"a number names a thing that the plan does not have; the place is the record, counted from 0",
        4 => b"a number is outside its limits; the place is the record, counted from 0",
        5 => b"a record does not fit the others; the place is the record, counted from 0",
        _ => UNKNOWN,
    }
}

// Rules 6.6 to 6.11: what the plan asks of the bus.
#[tactic(auto, unfolding(crate::specs::Meanings::of_bus))]
fn of_bus(number: u32) -> &'static [u8]
    ensures words { result.now ≡ of_bus number }
    ensures few { length result.now ≤ 100 }
{
    match number {
        6 => b"no task that is invoked has a consumer on another node; the place is 0",
        7 =>
            b"the bus period does not divide all periods and switch periods of sending modules; the place is 0",
        8 => b"the bus period is no multiple of the resolution; the place is 0",
        9 => b"more than 1024 data frames; the place is 0",
        10 =>
            b"a message or a control frame has more bytes than the largest payload; the place is 0",
        11 => b"the control frames take longer than the bus period; the place is 0",
        _ => UNKNOWN,
    }
}

// Rules 6.12, 6.13 and 6.19: the making of a table, in lent memory.
#[tactic(auto, unfolding(crate::specs::Meanings::of_making))]
fn of_making(number: u32) -> &'static [u8]
    ensures words { result.now ≡ of_making number }
    ensures few { length result.now ≤ 100 }
{
    match number {
        12 => b"no place for a frame; the place is the frame's number",
        13 => b"too few bytes are lent; the place is how many are needed",
        19 => b"fewer than 1024 frame rows are lent; the place is 1024",
        _ => UNKNOWN,
    }
}

// Rules 7.20 to 7.28: the checker.
#[tactic(auto, unfolding(crate::specs::Meanings::of_table))]
fn of_table(number: u32) -> &'static [u8]
    ensures words { result.now ≡ of_table number }
    ensures few { length result.now ≤ 100 }
{
    match number {
        20 => b"these are not a table's records; the place is the byte where they go wrong",
        21 => b"the head or the number of rows is not what the plan gives; the place is 0",
        22 => b"a control row is not the one that the plan gives; the place is the row's record",
        23 =>
            b"a data row is of no frame, or of one that an earlier row has; the place is the row's record",
        24 =>
            b"a data row has a wrong length, or starts off the resolution; the place is the row's record",
        25 => b"a data row starts before its release; the place is the row's record",
        26 => b"a data row stops behind its deadline; the place is the row's record",
        27 => b"a data row starts too soon behind the row before it; the place is the row's record",
        28 =>
            b"the last data row stops too late for the gap at the cycle's end; the place is the row's record",
        _ => UNKNOWN,
    }
}

// Rules 8.40 to 8.44: the played station.
#[tactic(auto, unfolding(crate::specs::Meanings::of_station))]
fn of_station(number: u32) -> &'static [u8]
    ensures words { result.now ≡ of_station number }
    ensures few { length result.now ≤ 100 }
{
    match number {
        40 =>
            b"the station has not begun; the place is the module whose starting mode is wrong, 0 at a tick",
        41 => b"a result that no run awaits; the place is the task",
        42 => b"a result that does not fit into its task's message; the place is the task",
        43 => b"a result is overdue; the place is the task",
        44 => b"a change of mode that is not allowed; the place is the module",
        _ => UNKNOWN,
    }
}

// Rules 18.8 and 21.11: what is given; and a number that no answer has.
#[tactic(auto, unfolding(crate::specs::Meanings::of_text))]
fn of_text(number: u32) -> &'static [u8]
    ensures words { result.now ≡ of_text number }
    ensures few { length result.now ≤ 100 }
{
    match number {
        60 => b"a line of the text cannot be read; the place is the line, counted from 1",
        61 => b"there is too much to read; the place is how many bytes are read",
        62 => b"no edition of this number; the place is the number",
        _ => UNKNOWN,
    }
}

#[tactic(auto, unfolding(crate::specs::Meanings::meaning))]
fn words_of(number: u32) -> &'static [u8]
    ensures words { result.now ≡ meaning number }
    ensures few { length result.now ≤ 100 }
{
    match number {
        ..=5 => of_records(number),
        ..=11 => of_bus(number),
        ..=19 => of_making(number),
        ..=28 => of_table(number),
        ..=44 => of_station(number),
        _ => of_text(number),
    }
}

// The words of a number from `at` on; the place behind them.
pub fn put_meaning(out: &mut [u8], at: usize, number: u32) -> usize
    requires { at + 100 ≤ 18446744073709551615 }
    ensures out_after { (out.new ≡ sets out.old at (meaning number)) × (result ≡ at + length (meaning number)) }
    ensures few { result ≤ at + 100 }
{
    put_bytes(out, at, words_of(number))
}

// A line of the programs' help.
fn put_help_line(out: &mut [u8], at: usize, number: u32) -> usize
    requires { at + 125 ≤ 18446744073709551615 }
    ensures out_after { (out.new ≡ sets out.old at (help_line number)) × (result ≡ at + length (help_line number)) }
    ensures few { result ≤ at + 125 }
{
    let colon = put_marked(&mut *out, at, b"  ", u64::from(number));
    let words = put_bytes(&mut *out, colon, b": ");
    let end = put_meaning(&mut *out, words, number);
    put_bytes(&mut *out, end, b"\n")
}

// The lines of so many numbers, from `first` on: what a program's help says of the refusals that it can give.
pub fn put_help_lines(out: &mut [u8], at: usize, first: u32, count: u32) -> usize
    requires { (at ≤ 65536) × (first ≤ 255) × (count ≤ 255) }
    ensures out_after { (out.new ≡ sets out.old at (help_lines first count)) × (result ≡ at + length (help_lines first count)) }
    ensures few { result ≤ at + 125 * count }
{
    let mut next = at;
    for i in 0..count {
        next = put_help_line(&mut *out, next, first + i);
    }
    next
}
