// A text read as a plan: any bytes to a plan's bytes, or to the first line that cannot be read, with the reason.
#![tactic(auto)]

ghost use Rattle.std.specs.Prelude.{[], ◌≡◌, ltb, drop, length, ◌+◌, ◌^◌, ◌≤◌};
ghost use Rattle.std.proofs.lemmas.List.Edits.{sets};
ghost use Rattle.laws.specs.Numbers.{bytes};
ghost use Rattle.text.specs.Lines.{words};
ghost use Rattle.planwords.specs.Items.{items_of};
ghost use Rattle.planwords.specs.TextPlan.{kind_by, line_read, matched, may_come, of_kind, read_lines, text_read, why_not, words_read};
ghost use Rattle.planreader.specs.Memory.{back_for, found_at, judged, judged_number, kind_stored, left_by, line_stored, longest_text, matching, missing, reading_from, said_of, stored_lines, stored_text, taken, words_stored};

use planitems::{is_name, items_of};
use planwords::{Item, Name, Reason};
use records::kinds::plan_follows;
use text::lines::{behind_end, comment_start, line_end, next_word, whole_number};

// No longer text is read.
pub const LONGEST: usize = 262_144;

// ---- numbers

// Whether a number fits so many bytes.
fn fits(n: u64, wide: u8) -> bool
    ensures { result ≡ ltb n (256 ^ wide) }
{
    match 256u64.checked_pow(u32::from(wide)) {
        Some(end) => n < end,
        None => true,
    }
}

// A number in so many bytes from `at` on; the place behind them.
fn put_number(out: &mut [u8], at: usize, wide: u8, n: u64) -> usize
    requires { at + 255 ≤ 18446744073709551615 }
    ensures out_after { (out.new ≡ sets out.old at (bytes wide n)) × (result ≡ at + length (bytes wide n)) }
    ensures few { result ≤ at + 255 }
{
    let mut rest = n;
    for k in 0..wide {
        little::put8(&mut *out, at + usize::from(k), (rest % 256) as u8);
        rest = rest / 256;
    }
    at + usize::from(wide)
}

// ---- words

// What a word says at its place: a number of so many bytes, of none where it says no number.
#[derive(Clone, Copy, PartialEq, Eq)]
struct Number {
    wide: u8,
    value: u64,
}

fn judge_number(wide: u8, number: Option<u64>) -> Result<Number, Reason>
    ensures { result ≡ judged_number wide number }
{
    let value = number.ok_or(Reason::NumberExpected)?;
    if fits(value, wide) {
        Ok(Number { wide, value })
    } else {
        Err(Reason::NumberTooLarge)
    }
}

fn judge(item: Item, word: &[u8]) -> Result<Number, Reason>
    ensures { result ≡ judged item word.now }
{
    match item {
        Item::Word(name) => {
            if is_name(word, name) {
                Ok(Number { wide: 0, value: 0 })
            } else {
                Err(Reason::Expected(name))
            }
        }
        Item::Number { bytes, columns: _ } => judge_number(bytes, whole_number(word)),
    }
}

// What is wrong where no word stands.
fn lacking(item: Item) -> Reason
    ensures { result ≡ missing item }
{
    match item {
        Item::Word(name) => Reason::Expected(name),
        Item::Number {
            bytes: _,
            columns: _,
        } => Reason::NumberExpected,
    }
}

// What the first word from a place on says, and the place behind it.
#[derive(Clone, Copy, PartialEq, Eq)]
struct Passed {
    number: Number,
    next: usize,
}

#[tactic(auto, unfolding(crate::specs::Memory::found_at))]
fn judge_at(s: &[u8], at: usize, item: Item) -> Result<Passed, Reason>
    ensures { result ≡ found_at s.now at item }
{
    let word = next_word(s, at).ok_or(lacking(item))?;
    let number = judge(item, &s[word.from..word.to])?;
    Ok(Passed {
        number,
        next: word.to,
    })
}

// Nothing may stand behind the words of a line.
fn ended(s: &[u8], at: usize, end: usize) -> Result<usize, Reason>
    ensures { result ≡ matching (matched [] (words (drop at s.now))) end }
{
    match next_word(s, at) {
        None => Ok(end),
        Some(_) => Err(Reason::EndExpected),
    }
}

// What a line's words behind the first come to, place by place: the place behind the bytes of their numbers, or the first reason. The bytes of
// each number go to `out`, from `at` on.
fn put_items(s: &[u8], from: usize, kind: u8, out: &mut [u8], at: usize) -> Result<usize, Reason>
    requires { at + 3570 ≤ 18446744073709551615 }
    ensures value { result ≡ matching (matched (items_of kind) (words (drop from s.now))) (at + length (taken (items_of kind) (words (drop from s.now)))) }
    ensures out_after { out.new ≡ sets out.old at (taken (items_of kind) (words (drop from s.now))) }
{
    let mut next = from;
    let mut end = at;
    let items = items_of(kind);
    for item in items {
        let passed = judge_at(s, next, *item)?;
        end = put_number(&mut *out, end, passed.number.wide, passed.number.value);
        next = passed.next;
    }
    ended(s, next, end)
}

fn count_words(s: &[u8], at: usize) -> usize
    ensures { result ≡ length (words (drop at s.now)) }
{
    let mut next = at;
    let mut count = 0;
    while let Some(word) = next_word(s, next) {
        next = word.to;
        count += 1;
    }
    count
}

// ---- lines

// The kind that a line's first word says, with so many words behind it; 0 where it begins no line.
#[tactic(auto, unfolding(planwords::specs::TextPlan::kind_by))]
fn kind_of(word: &[u8], more: usize) -> u8
    ensures { result ≡ kind_by word.now more }
{
    if is_name(word, Name::Bus) {
        let framed = more > 12;
        return if framed {
            fields::framed_bus::KIND
        } else {
            fields::bus::KIND
        };
    }
    if is_name(word, Name::Nodes) {
        return fields::nodes::KIND;
    }
    if is_name(word, Name::Module) {
        return fields::module::KIND;
    }
    if is_name(word, Name::Mode) {
        return fields::mode::KIND;
    }
    if is_name(word, Name::Task) {
        return fields::task::KIND;
    }
    if is_name(word, Name::Run) {
        return fields::invocation::KIND;
    }
    if is_name(word, Name::Connect) {
        return fields::connection::KIND;
    }
    fields::end::KIND
}

#[tactic(auto, unfolding(planwords::specs::TextPlan::may_come))]
fn may_come(previous: u8, kind: u8) -> bool
    ensures { result ≡ may_come previous kind }
{
    kind != 0 && plan_follows(previous, kind)
}

#[tactic(auto, unfolding(planwords::specs::TextPlan::why_not, rules::specs::Records::plan_follows))]
fn why_not(previous: u8, kind: u8) -> Reason
    ensures { result ≡ why_not previous kind }
{
    if previous == 0 {
        return Reason::BusExpected;
    }
    // What may stand at the front is a bus.
    if plan_follows(0, previous) {
        return Reason::NodesExpected;
    }
    if kind == 0 {
        return Reason::UnknownWord;
    }
    Reason::OutOfOrder
}

// Where some lines end: the kind of their last record, 0 where they have none, and the place behind what was stored of them.
#[derive(Clone, Copy, PartialEq, Eq)]
struct Last {
    kind: u8,
    end: usize,
}

// A line of a kind that has its other words from a place on, behind some lines; its record goes to `out`, behind what was stored.
fn kind_said(s: &[u8], from: usize, last: Last, kind: u8, out: &mut [u8]) -> Result<Last, Reason>
    requires { last.end + 3571 ≤ 18446744073709551615 }
    ensures value { result ≡ said_of last.kind (last.end + length (kind_stored last.kind kind (words (drop from s.now)))) (of_kind last.kind kind (words (drop from s.now))) }
    ensures out_after { out.new ≡ sets out.old last.end (kind_stored last.kind kind (words (drop from s.now))) }
{
    if !may_come(last.kind, kind) {
        return Err(why_not(last.kind, kind));
    }
    little::put8(&mut *out, last.end, kind);
    let end = put_items(s, from, kind, out, last.end + 1)?;
    Ok(Last { kind, end })
}

// A line's words; a blank line leaves things as they are.
fn words_said(s: &[u8], last: Last, out: &mut [u8]) -> Result<Last, Reason>
    requires { last.end + 3571 ≤ 18446744073709551615 }
    ensures value { result ≡ said_of last.kind (last.end + length (words_stored last.kind (words s.now))) (words_read last.kind (words s.now)) }
    ensures out_after { out.new ≡ sets out.old last.end (words_stored last.kind (words s.now)) }
{
    match next_word(s, 0) {
        None => Ok(last),
        Some(word) => {
            let kind = kind_of(&s[word.from..word.to], count_words(s, word.to));
            kind_said(s, word.to, last, kind, out)
        }
    }
}

// A line without its comment.
fn line_said(line: &[u8], last: Last, out: &mut [u8]) -> Result<Last, Reason>
    requires { last.end + 3571 ≤ 18446744073709551615 }
    ensures value { result ≡ said_of last.kind (last.end + length (line_stored last.kind line.now)) (line_read last.kind line.now) }
    ensures out_after { out.new ≡ sets out.old last.end (line_stored last.kind line.now) }
{
    let end = comment_start(line);
    words_said(&line[..end], last, out)
}

// ---- the whole text

// The first line that cannot be read.
#[derive(Clone, Copy, PartialEq, Eq)]
pub struct Unreadable {
    pub line: u64,
    pub why: Reason,
}

// Behind the last line: the end record, where it may stand; the place behind it.
fn finish(last: Last, line: u64, out: &mut [u8]) -> Result<usize, Unreadable>
    requires { last.end + 1 ≤ 18446744073709551615 }
    ensures value { result ≡ reading_from last.end (read_lines line last.kind []) }
    ensures out_after { out.new ≡ sets out.old last.end (stored_lines last.kind []) }
{
    if !plan_follows(last.kind, 0) {
        return Err(Unreadable {
            line,
            why: why_not(last.kind, 0),
        });
    }
    little::put8(out, last.end, 0);
    Ok(last.end + 1)
}

// Line by line, to the length of the text's plan; the records go to `out`, as far as it has room, up to the first line that cannot be read.
fn gather(text: &[u8], out: &mut [u8]) -> Result<usize, Unreadable>
    requires { length text.now ≤ longest_text }
    ensures value { result ≡ reading_from 0 (text_read text.now) }
    ensures out_after { out.new ≡ sets out.old 0 (stored_text text.now) }
{
    let mut last = Last { kind: 0, end: 0 };
    let mut at = 0;
    let mut line: u64 = 0;
    while at < text.len() {
        let stop = line_end(text, at);
        line += 1;
        match line_said(&text[at..stop], last, &mut *out) {
            Err(why) => return Err(Unreadable { line, why }),
            Ok(behind) => {
                last = behind;
                at = behind_end(text, stop);
            }
        }
    }
    finish(last, line + 1, out)
}

// Why no plan stands at the front of the lent bytes, which are then as they were: the first line that cannot be read; how many bytes the plan
// needs, where fewer are lent; a text that is longer than what is read.
#[derive(Clone, Copy, PartialEq, Eq)]
pub enum Unread {
    Unreadable(Unreadable),
    Needs(usize),
    TooLong,
}

impl From<Unreadable> for Unread {
    ghost use Rattle.planreader.specs.declared.Unread.TheVariants.{Unreadable as unreadable};
    ghost use Rattle.std.specs.Prelude.{◌≡◌};

    ghost from_gives = { λ line unread. unread ≡ unreadable line };

    fn from(line: Unreadable) -> Unread {
        Unread::Unreadable(line)
    }
}

// The length of a text's plan, which then stands at the front of the lent bytes. The text is read twice: for its length, into no bytes at all,
// and into those that are lent, once it is known that the plan has room there.
pub fn read(text: &[u8], plan: &mut [u8]) -> Result<usize, Unread>
    ensures value { result ≡ back_for text.now plan.old }
    ensures plan_after { plan.new ≡ left_by text.now plan.old }
{
    if text.len() > LONGEST {
        return Err(Unread::TooLong);
    }
    let needed = gather(text, &mut [])?;
    if plan.len() < needed {
        return Err(Unread::Needs(needed));
    }
    let _ = gather(text, plan);
    Ok(needed)
}
