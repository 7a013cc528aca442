// What the lines of a plan's text have, place by place, and how their words are spelled: for what prints a plan and for what reads one.
#![tactic(auto)]

ghost use Rattle.std.specs.Prelude.{◌≡◌, ◌+◌, ◌-◌, ◌≤◌, length, take, drop};
ghost use Rattle.std.proofs.lemmas.List.Edits.{sets};
ghost use Rattle.text.specs.Lines.{is_word};
ghost use Rattle.planwords.specs.Items.{spelled, first_of, items_of};
ghost use Rattle.planwords.specs.TextPlan.{reason_text};
ghost use Rattle.planitems.specs.declared.TheConstants.{ITEMS, WORDS};

use planwords::{Item, Name, Reason};
use text::lines::is_word;
use text::put_bytes;

// Numbers of one byte, two and four that stand as they are.
const BYTE: Item = Item::Number {
    bytes: 1,
    columns: 0,
};

const SHORT: Item = Item::Number {
    bytes: 2,
    columns: 0,
};

const LONG: Item = Item::Number {
    bytes: 4,
    columns: 0,
};

// The number of a thing, a time and a rate, each in its columns.
const THING: Item = Item::Number {
    bytes: 1,
    columns: 2,
};

const TIME: Item = Item::Number {
    bytes: 4,
    columns: 7,
};

const RATE: Item = Item::Number {
    bytes: 2,
    columns: 5,
};

// What stands behind the first word of each kind's line, one line behind the other: a bus, of which the last two are kind 9's alone, the
// nodes, a module, a mode, a task, an invocation, a connection. Of lists apart the compiler would make a table of addresses, which is data.
const ITEMS: [Item; 44] = [
    Item::Word(Name::Kbit),
    LONG,
    Item::Word(Name::Overhead),
    SHORT,
    Item::Word(Name::Least),
    SHORT,
    Item::Word(Name::Largest),
    SHORT,
    Item::Word(Name::Gap),
    SHORT,
    Item::Word(Name::Resolution),
    LONG,
    Item::Word(Name::BitsPerByte),
    BYTE,
    BYTE,
    Item::Word(Name::On),
    Item::Word(Name::Node),
    BYTE,
    Item::Word(Name::Of),
    Item::Word(Name::Module),
    THING,
    Item::Word(Name::Period),
    TIME,
    Item::Word(Name::Switch),
    TIME,
    Item::Word(Name::Of),
    Item::Word(Name::Module),
    THING,
    Item::Word(Name::Bytes),
    BYTE,
    Item::Word(Name::Worst),
    TIME,
    Item::Word(Name::In),
    Item::Word(Name::Mode),
    THING,
    Item::Word(Name::Task),
    THING,
    Item::Word(Name::Rate),
    RATE,
    Item::Word(Name::Task),
    THING,
    Item::Word(Name::To),
    Item::Word(Name::Task),
    THING,
];

// A part of a row: from its first place to before `to`.
#[derive(Clone, Copy)]
struct Span {
    from: usize,
    to: usize,
}

// The word that the line of a kind begins with.
#[tactic(auto, unfolding(planwords::specs::Items::first_of, planwords::specs::Items::form_of, planwords::specs::Items::forms))]
pub fn first_of(kind: u8) -> Name
    ensures { result ≡ first_of kind }
{
    match kind {
        fields::nodes::KIND => Name::Nodes,
        fields::module::KIND => Name::Module,
        fields::mode::KIND => Name::Mode,
        fields::task::KIND => Name::Task,
        fields::invocation::KIND => Name::Run,
        fields::connection::KIND => Name::Connect,
        _ => Name::Bus,
    }
}

// Where a kind's line stands among the items.
#[tactic(auto, unfolding(planwords::specs::Items::items_of, planwords::specs::Items::form_of, planwords::specs::Items::forms))]
fn line_of(kind: u8) -> Span
    ensures within { (result.from ≤ result.to) × ((result.to ≤ 44) × (result.to - result.from ≤ 14)) }
    ensures items { take (result.to - result.from) (drop result.from ITEMS) ≡ items_of kind }
{
    match kind {
        fields::bus::KIND => Span { from: 0, to: 12 },
        fields::framed_bus::KIND => Span { from: 0, to: 14 },
        fields::nodes::KIND => Span { from: 14, to: 15 },
        fields::module::KIND => Span { from: 15, to: 18 },
        fields::mode::KIND => Span { from: 18, to: 25 },
        fields::task::KIND => Span { from: 25, to: 32 },
        fields::invocation::KIND => Span { from: 32, to: 39 },
        fields::connection::KIND => Span { from: 39, to: 44 },
        _ => Span { from: 0, to: 0 },
    }
}

// What stands behind that word.
pub fn items_of(kind: u8) -> &'static [Item]
    ensures all { result.now ≡ items_of kind }
    ensures few { length result.now ≤ 14 }
{
    let line = line_of(kind);
    &ITEMS[line.from..line.to]
}

// All words, one behind the other; of words apart there would be a table of addresses too.
const WORDS: [u8; 149] =
    *b"buskbit/soverhead-bytesleast-payloadlargest-payloadgap-bitsresolutionbits-per-bytenodesmoduleonnodemodeofperiodswitchtaskbytesworstruninrateconnectto";

// A word's part of them.
#[tactic(auto, unfolding(planwords::specs::Items::spelled))]
fn part_of(name: Name) -> Span
    ensures within { (result.from ≤ result.to) × ((result.to ≤ 149) × (result.to - result.from ≤ 15)) }
    ensures word { take (result.to - result.from) (drop result.from WORDS) ≡ spelled name }
{
    match name {
        Name::Bus => Span { from: 0, to: 3 },
        Name::Kbit => Span { from: 3, to: 9 },
        Name::Overhead => Span { from: 9, to: 23 },
        Name::Least => Span { from: 23, to: 36 },
        Name::Largest => Span { from: 36, to: 51 },
        Name::Gap => Span { from: 51, to: 59 },
        Name::Resolution => Span { from: 59, to: 69 },
        Name::BitsPerByte => Span { from: 69, to: 82 },
        Name::Nodes => Span { from: 82, to: 87 },
        Name::Module => Span { from: 87, to: 93 },
        Name::On => Span { from: 93, to: 95 },
        Name::Node => Span { from: 95, to: 99 },
        Name::Mode => Span { from: 99, to: 103 },
        Name::Of => Span { from: 103, to: 105 },
        Name::Period => Span { from: 105, to: 111 },
        Name::Switch => Span { from: 111, to: 117 },
        Name::Task => Span { from: 117, to: 121 },
        Name::Bytes => Span { from: 121, to: 126 },
        Name::Worst => Span { from: 126, to: 131 },
        Name::Run => Span { from: 131, to: 134 },
        Name::In => Span { from: 134, to: 136 },
        Name::Rate => Span { from: 136, to: 140 },
        Name::Connect => Span { from: 140, to: 147 },
        Name::To => Span { from: 147, to: 149 },
    }
}

// How a word is spelled.
fn spelled(name: Name) -> &'static [u8]
    ensures { (result.now ≡ spelled name) × (length result.now ≤ 15) }
{
    let part = part_of(name);
    &WORDS[part.from..part.to]
}

// A word from a place on; the place behind it.
pub fn put_name(out: &mut [u8], at: usize, name: Name) -> usize
    requires { at + 15 ≤ 18446744073709551615 }
    ensures out_after { (out.new ≡ sets out.old at (spelled name)) × (result ≡ at + length (spelled name)) }
    ensures few { result ≤ at + 15 }
{
    put_bytes(out, at, spelled(name))
}

// Whether a text is the word.
pub fn is_name(word: &[u8], name: Name) -> bool
    ensures { result ≡ is_word (spelled name) word.now }
{
    is_word(word, spelled(name))
}

// The words of a reason from a place on; the place behind them.
#[tactic(auto, unfolding(planwords::specs::TextPlan::reason_text))]
pub fn put_reason(out: &mut [u8], at: usize, why: Reason) -> usize
    requires { at + 25 ≤ 18446744073709551615 }
    ensures out_after { (out.new ≡ sets out.old at (reason_text why)) × (result ≡ at + length (reason_text why)) }
    ensures few { result ≤ at + 25 }
{
    match why {
        Reason::BusExpected => put_bytes(out, at, b"bus expected"),
        Reason::NodesExpected => put_bytes(out, at, b"nodes expected"),
        Reason::UnknownWord => put_bytes(out, at, b"unknown word"),
        Reason::OutOfOrder => put_bytes(out, at, b"out of order"),
        Reason::Expected(name) => {
            let end = put_name(&mut *out, at, name);
            put_bytes(out, end, b" expected")
        }
        Reason::NumberExpected => put_bytes(out, at, b"number expected"),
        Reason::NumberTooLarge => put_bytes(out, at, b"number too large"),
        Reason::EndExpected => put_bytes(out, at, b"end of line expected"),
    }
}
