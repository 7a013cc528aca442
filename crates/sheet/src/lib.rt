// The sheet of a table: what its cells may hold, which lines it has, and what a reader asks of their words. The text of a sheet and what is
// read from one are definitions (specs/Sheet.antt, specs/Back.antt), and the theorems about them stand here; the crates above write and read.
#![tactic(auto)]

// A cell of a row: `-`, a number, or a number below zero, by how much it is.
#[derive(Clone, Copy)]
pub enum Cell {
    Dash,
    Count(u64),
    Below(u64),
}

// A line by its first word; a line without a word is blank.
#[derive(Clone, Copy)]
pub enum Kind {
    Refused,
    Cycle,
    Control,
    Data,
    Other,
}

// What a word of a line has to be: `-`, `at`, a number up to a limit, a number with or without `-` in front; `consumers`, or no word; or no
// word at all.
#[derive(Clone, Copy)]
pub enum Form {
    Dash,
    At,
    Most(u64),
    Signed,
    Consumers,
    End,
}
