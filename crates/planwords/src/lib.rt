// A plan as text: the words of its lines, what each kind of record has in its line, and why a line cannot be read. What is printed and what is
// read are definitions (specs/PlanText.antt, specs/TextPlan.antt), and the theorems about them stand here; the crates above write and read.
#![tactic(auto)]

// The words of the lines, in the order in which the kinds have them.
#[derive(Clone, Copy, PartialEq, Eq)]
pub enum Name {
    Bus,
    Kbit,
    Overhead,
    Least,
    Largest,
    Gap,
    Resolution,
    BitsPerByte,
    Nodes,
    Module,
    On,
    Node,
    Mode,
    Of,
    Period,
    Switch,
    Task,
    Bytes,
    Worst,
    Run,
    In,
    Rate,
    Connect,
    To,
}

// What stands at a place of a line: a word; a number that has so many bytes in the record and is printed in so many columns.
#[derive(Clone, Copy, PartialEq, Eq)]
pub enum Item {
    Word(Name),
    Number { bytes: u8, columns: u8 },
}

// Why a line cannot be read.
#[derive(Clone, Copy, PartialEq, Eq)]
pub enum Reason {
    BusExpected,
    NodesExpected,
    UnknownWord,
    OutOfOrder,
    Expected(Name),
    NumberExpected,
    NumberTooLarge,
    EndExpected,
}
