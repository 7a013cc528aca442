// The reasons for which a line of a plan's text cannot be read, by number (rule 20.8), and the words of each number.
#![tactic(auto)]

ghost use Rattle.std.specs.Prelude.{◌≡◌, ◌+◌, ◌≤◌, length, get_or};
ghost use Rattle.std.proofs.Math.Option.{none};
ghost use Rattle.std.proofs.lemmas.List.Edits.{sets};
ghost use Rattle.reasons.specs.Memory.{found};
ghost use Rattle.reasons.specs.Numbers.{expected_reasons, name_number, plain_reasons, reason_at, reason_number, reason_words};

use planitems::put_reason;
use planwords::{Name, Reason};
use text::put_bytes;

// The numbers of those that ask for a word begin here.
const WORDS: u32 = 32;

// The words are declared in the order of their numbers.
#[tactic(auto, unfolding(crate::specs::Numbers::name_number))]
fn name_number(name: Name) -> u32
    ensures { (result ≡ name_number name) × (result ≤ 23) }
{
    name as u32
}

// No `From`: this crate owns neither of the two types.
#[tactic(auto, unfolding(crate::specs::Numbers::reason_number))]
pub fn number_of(why: Reason) -> u32
    ensures { result ≡ reason_number why }
{
    match why {
        Reason::BusExpected => 1,
        Reason::NodesExpected => 2,
        Reason::UnknownWord => 3,
        Reason::OutOfOrder => 4,
        Reason::NumberExpected => 5,
        Reason::NumberTooLarge => 6,
        Reason::EndExpected => 7,
        Reason::Expected(name) => WORDS + name_number(name),
    }
}

// The words by their numbers.
const NAMED: [Name; 24] = [
    Name::Bus,
    Name::Kbit,
    Name::Overhead,
    Name::Least,
    Name::Largest,
    Name::Gap,
    Name::Resolution,
    Name::BitsPerByte,
    Name::Nodes,
    Name::Module,
    Name::On,
    Name::Node,
    Name::Mode,
    Name::Of,
    Name::Period,
    Name::Switch,
    Name::Task,
    Name::Bytes,
    Name::Worst,
    Name::Run,
    Name::In,
    Name::Rate,
    Name::Connect,
    Name::To,
];

fn plain_reason(number: u32) -> Option<Reason>
    ensures { result ≡ found (get_or plain_reasons number none) }
{
    match number {
        1 => Some(Reason::BusExpected),
        2 => Some(Reason::NodesExpected),
        3 => Some(Reason::UnknownWord),
        4 => Some(Reason::OutOfOrder),
        5 => Some(Reason::NumberExpected),
        6 => Some(Reason::NumberTooLarge),
        7 => Some(Reason::EndExpected),
        _ => None,
    }
}

fn expected_reason(k: u32) -> Option<Reason>
    ensures { result ≡ found (get_or expected_reasons k none) }
{
    let name = NAMED.get(k as usize)?;
    Some(Reason::Expected(*name))
}

// The reason that a number has.
fn reason_at(number: u32) -> Option<Reason>
    ensures { result ≡ found (reason_at number) }
{
    if number < WORDS {
        plain_reason(number)
    } else {
        expected_reason(number - WORDS)
    }
}

// The words of a number from a place on; the place behind them.
pub fn put_words(out: &mut [u8], at: usize, number: u32) -> usize
    requires { at + 25 ≤ 18446744073709551615 }
    ensures out_after { (out.new ≡ sets out.old at (reason_words number)) × (result ≡ at + length (reason_words number)) }
    ensures few { result ≤ at + 25 }
{
    match reason_at(number) {
        Some(why) => put_reason(out, at, why),
        None => put_bytes(out, at, b"no number of a reason"),
    }
}
