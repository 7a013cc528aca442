// Records: the table of kinds, and the reader that gives one record of a lent file at a time (rules 2.9, 2.10). `next` and `body` make a
// reader and ask it.
#![tactic(auto)]

ghost use Rattle.std.specs.Prelude.{◌≡◌, ◌-◌, ◌≤◌, length, take, drop};
ghost use Rattle.records.specs.Reader.{next_at};

pub mod kinds;
mod reader;

use reader::Reader;
use units::Offset;

// The two sorts of files.
#[derive(Clone, Copy)]
pub enum Sort {
    Plan,
    Table,
}

// What stands at a place of a file.
#[derive(Clone, Copy)]
pub enum Step {
    // A record: its body begins at `body`, and the next record at `next`.
    Record { kind: u8, body: usize, next: usize },
    // The end record, and the end of the file behind it.
    End,
    // The record rules are broken, at this place.
    Wrong(Offset),
}

// What stands at a place of a file, behind a record of the kind `previous`; behind nothing where that is 0.
pub fn next(s: &[u8], sort: Sort, previous: u8, at: usize) -> Step
    ensures { result ≡ next_at sort s.now previous at }
{
    Reader { src: s, at }.next(sort, previous)
}

// The body of a record that a step gave, whose places are `start` and `end`: that part of the lent file itself.
pub fn body(s: &[u8], start: usize, end: usize) -> &[u8]
    requires { (start ≤ end) × (end ≤ length s.now) }
    ensures { result.now ≡ take (end - start) (drop start s.now) }
{
    Reader { src: s, at: start }.body(end)
}
