// A plan printed as text (docs/RULES.md, section 19): its records' lines, at the front of lent bytes.
#![tactic(auto)]

ghost use Rattle.std.specs.Prelude.{◌≡◌, [], ◌∷◌, ◌++◌, ◌+◌, ◌≤◌, ◌<◌, length, drop};
ghost use Rattle.std.proofs.lemmas.List.Edits.{sets};
ghost use Rattle.rules.specs.Records.{record_of};
ghost use Rattle.text.specs.Text.{decimal, ended, marked, pad_left};
ghost use Rattle.planwords.specs.Items.{items_of, thing_of};
ghost use Rattle.planwords.specs.PlanText.{comment_text, counted_as, count_of, items_text, plan_line, plan_text};
ghost use Rattle.planwriter.specs.Pieces.{item_text, item_wide, number_in};
ghost use Rattle.planwriter.specs.Printing.{MayPut, left_by, lines_for, lines_left, printing_for};

use little::{read8, read16, read32};
use planitems::{first_of, items_of, put_name};
use planwords::Item;
use records::{Sort, Step};
use text::{decimal_length, put_bytes, put_decimal, put_marked, put_spaces};
use units::Offset;

// The longest plan that is read.
pub const LONGEST_PLAN: usize = 65536;

// The columns that a line is filled up to, in front of its comment.
const COLUMNS: usize = 47;

// Why no text stands at the front of the lent bytes, which are then as they were: the place where the record rules are broken; how many bytes
// the text needs, where fewer are lent; a plan that is longer than is read.
#[derive(Clone, Copy, PartialEq, Eq)]
pub enum Unprinted {
    Refused(Offset),
    Needs(usize),
    TooLong,
}

impl From<Offset> for Unprinted {
    ghost use Rattle.planwriter.specs.declared.Unprinted.TheVariants.{Refused as refused};
    ghost use Rattle.std.specs.Prelude.{◌≡◌};

    ghost from_gives = { λ place unprinted. unprinted ≡ refused place };

    fn from(place: Offset) -> Unprinted {
        Unprinted::Refused(place)
    }
}

// ---- items

// A number of a body, by its width in bytes.
#[tactic(auto, unfolding(crate::specs::Pieces::number_in))]
fn number_at(body: &[u8], at: usize, wide: u8) -> u64
    ensures { result ≡ number_in wide (drop at body.now) }
{
    match wide {
        1 => u64::from(read8(body, at)),
        2 => u64::from(read16(body, at)),
        _ => u64::from(read32(body, at)),
    }
}

// A space, and the number at the right end of its columns.
fn put_number(out: &mut [u8], at: usize, columns: u8, x: u64) -> usize
    requires { at + 276 ≤ 18446744073709551615 }
    ensures out_after { (out.new ≡ sets out.old at (32 ∷ pad_left columns (decimal x))) × (result ≡ at + length (32 ∷ pad_left columns (decimal x))) }
    ensures few { result ≤ at + 276 }
{
    let blanks = 1 + usize::from(columns).saturating_sub(decimal_length(x));
    let number_at = put_spaces(&mut *out, at, blanks);
    put_decimal(out, number_at, x)
}

// An item, with a space in front; a number is read from a place of the body.
fn put_item(out: &mut [u8], at: usize, item: Item, body: &[u8], from: usize) -> usize
    requires { at + 276 ≤ 18446744073709551615 }
    ensures out_after { (out.new ≡ sets out.old at (item_text item (drop from body.now))) × (result ≡ at + length (item_text item (drop from body.now))) }
    ensures few { result ≤ at + 276 }
{
    match item {
        Item::Word(name) => {
            let name_at = put_bytes(&mut *out, at, b" ");
            put_name(out, name_at, name)
        }
        Item::Number { bytes, columns } => {
            put_number(out, at, columns, number_at(body, from, bytes))
        }
    }
}

// How many bytes of the body an item takes.
fn item_wide(item: Item) -> usize
    ensures { (result ≡ item_wide item) × (result < 256) }
{
    match item {
        Item::Word(_) => 0,
        Item::Number { bytes, columns: _ } => usize::from(bytes),
    }
}

// The items of a record, whose body is lent.
fn put_items(out: &mut [u8], at: usize, kind: u8, body: &[u8]) -> usize
    requires { at + 3864 ≤ 18446744073709551615 }
    ensures out_after { (out.new ≡ sets out.old at (items_text (items_of kind) (record_of kind body.now).numbers)) × (result ≡ at + length (items_text (items_of kind) (record_of kind body.now).numbers)) }
    ensures few { result ≤ at + 3864 }
{
    let mut next = at;
    let mut from = 0;
    let items = items_of(kind);
    for item in items {
        next = put_item(&mut *out, next, *item, body, from);
        from += item_wide(*item);
    }
    next
}

// ---- the comment

// What a record is counted as, and its number among those.
fn put_counted(out: &mut [u8], at: usize, mark: &[u8], k: usize) -> usize
    requires mark_len_bound { length mark.now ≤ 11 }
    requires at_bound { at + 33 ≤ 18446744073709551615 }
    ensures out_after { (out.new ≡ sets out.old at (marked mark.now k ++ (44 ∷ 32 ∷ []))) × (result ≡ at + length (marked mark.now k ++ (44 ∷ 32 ∷ []))) }
    ensures few { result ≤ at + 33 }
{
    let end = put_marked(&mut *out, at, mark, k as u64);
    put_bytes(out, end, b", ")
}

#[tactic(auto, unfolding(planwords::specs::Items::thing_of, planwords::specs::Items::form_of, planwords::specs::Items::forms))]
fn put_thing(out: &mut [u8], at: usize, kind: u8, k: usize) -> usize
    requires { at + 33 ≤ 18446744073709551615 }
    ensures out_after { (out.new ≡ sets out.old at (counted_as (thing_of kind) k)) × (result ≡ at + length (counted_as (thing_of kind) k)) }
    ensures few { result ≤ at + 33 }
{
    match kind {
        fields::module::KIND => put_counted(out, at, b"module ", k),
        fields::mode::KIND => put_counted(out, at, b"mode ", k),
        fields::task::KIND => put_counted(out, at, b"task ", k),
        fields::invocation::KIND => put_counted(out, at, b"run ", k),
        fields::connection::KIND => put_counted(out, at, b"connection ", k),
        _ => at,
    }
}

fn put_comment(out: &mut [u8], at: usize, kind: u8, k: usize, number: usize) -> usize
    requires { at + 64 ≤ 18446744073709551615 }
    ensures out_after { (out.new ≡ sets out.old at (comment_text kind k number)) × (result ≡ at + length (comment_text kind k number)) }
    ensures few { result ≤ at + 64 }
{
    let thing_at = put_bytes(&mut *out, at, b"  # ");
    let record_at = put_thing(&mut *out, thing_at, kind, k);
    put_marked(out, record_at, b"record ", number as u64)
}

// ---- lines

// The line of a record, whose body is lent; `k` of its kind and `number` of all came before.
fn put_line(out: &mut [u8], at: usize, kind: u8, body: &[u8], k: usize, number: usize) -> usize
    requires { at + 4000 ≤ 18446744073709551615 }
    ensures out_after { (out.new ≡ sets out.old at (ended (plan_line (record_of kind body.now) k number))) × (result ≡ at + length (ended (plan_line (record_of kind body.now) k number))) }
    ensures few { result ≤ at + 4000 }
{
    let items_at = put_name(&mut *out, at, first_of(kind));
    let filled_at = put_items(&mut *out, items_at, kind, body);
    let used = filled_at - at;
    let comment_at = put_spaces(&mut *out, filled_at, COLUMNS.saturating_sub(used));
    let end = put_comment(&mut *out, comment_at, kind, k, number);
    put_bytes(out, end, b"\n")
}

// How many records of a kind came before, where `k` of the kind `previous` did.
#[tactic(auto, unfolding(planwords::specs::PlanText::count_of))]
fn count_of(previous: u8, k: usize, kind: u8) -> usize
    ensures { (result ≡ count_of previous k kind) × (result ≤ k) }
{
    if kind == previous { k } else { 0 }
}

// Each record's line, in the file's order, to the place behind them, or to where the record rules are broken. Where no bytes are lent nothing is
// stored, so that the lines are measured.
fn put_lines(plan: &[u8], text: &mut [u8]) -> Result<usize, Offset>
    requires { (length plan.now ≤ 65536) × MayPut (plan_text plan.now) text.old }
    ensures value { result ≡ lines_for (plan_text plan.now) }
    ensures left { text.new ≡ lines_left (plan_text plan.now) text.old }
{
    let mut previous: u8 = 0;
    let mut at = 0;
    let mut k = 0;
    let mut number = 0;
    let mut end = 0;
    loop {
        match records::next(plan, Sort::Plan, previous, at) {
            Step::Record {
                kind,
                body: start,
                next,
            } => {
                let body = records::body(plan, start, next);
                let before = count_of(previous, k, kind);
                end = put_line(&mut *text, end, kind, body, before, number);
                previous = kind;
                at = next;
                k = before + 1;
                number += 1;
            }
            Step::End => return Ok(end),
            Step::Wrong(place) => return Err(place),
        }
    }
}

// A file of any bytes, printed at the front of the lent bytes if the whole text has room there; the text's length.
pub fn print(plan: &[u8], text: &mut [u8]) -> Result<usize, Unprinted>
    ensures value { result ≡ printing_for plan.now text.old }
    ensures left { text.new ≡ left_by plan.now text.old }
{
    if LONGEST_PLAN < plan.len() {
        return Err(Unprinted::TooLong);
    }
    let length = put_lines(plan, &mut [])?;
    if text.len() < length {
        return Err(Unprinted::Needs(length));
    }
    let _ = put_lines(plan, text);
    Ok(length)
}
