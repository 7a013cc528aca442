// Text, as the programs write and read it: bytes in ASCII, stored into a lent buffer and read from lent bytes. A byte behind the
// buffer's end is not stored, so that a buffer of any length may be lent.
#![tactic(auto)]

ghost use Rattle.std.specs.Prelude.{◌≡◌, ◌+◌, ◌-◌, ◌≤◌, drop, length, set};
ghost use Rattle.std.proofs.lemmas.List.Edits.{sets};
ghost use Rattle.text.specs.Text.{digits, decimal, marked, numbered_line, refused_line, spaces, too_long_line, unreadable_line, passed_line, is_digit, digit_run, front_number, read_decimal};

pub mod lines;

// A number read: its value and the place behind its digits.
#[derive(Clone, Copy, PartialEq, Eq)]
pub struct Digits {
    pub value: u64,
    pub next: usize,
}

fn store(buf: &mut [u8], at: usize, x: u8)
    ensures { buf.new ≡ set buf.old at x }
{
    if at < buf.len() {
        buf[at] = x;
    }
}

// A byte string from `at` on; the place behind it.
pub fn put_bytes(buf: &mut [u8], at: usize, s: &[u8]) -> usize
    requires { at + length s.now ≤ 18446744073709551615 }
    ensures { (buf.new ≡ sets buf.old at s.now) × (result ≡ at + length s.now) }
{
    for (i, byte) in s.iter().enumerate() {
        store(&mut *buf, at + i, *byte);
    }
    at + s.len()
}

// The digits of x from `at` on, none for 0; the place behind them. It calls itself once for each digit, at most 20 times.
fn put_digits(buf: &mut [u8], at: usize, x: u64) -> usize
    requires { at + length (digits x) ≤ 18446744073709551615 }
    ensures { (buf.new ≡ sets buf.old at (digits x)) × (result ≡ at + length (digits x)) }
{
    if x == 0 {
        return at;
    }
    let last = put_digits(&mut *buf, at, x / 10);
    store(&mut *buf, last, b'0' + (x % 10) as u8);
    last + 1
}

// x from `at` on; the place behind it.
pub fn put_decimal(buf: &mut [u8], at: usize, x: u64) -> usize
    requires { at + 20 ≤ 18446744073709551615 }
    ensures { (buf.new ≡ sets buf.old at (decimal x)) × (result ≡ at + length (decimal x)) }
{
    if x == 0 {
        store(&mut *buf, at, b'0');
        return at + 1;
    }
    put_digits(&mut *buf, at, x)
}

// The line `refused N at P` at the front of the buffer; its length.
pub fn put_refused(buf: &mut [u8], number: u32, place: usize) -> usize
    ensures { (buf.new ≡ sets buf.old 0 (refused_line number place)) × (result ≡ length (refused_line number place)) }
{
    let number_at = put_bytes(&mut *buf, 0, b"refused ");
    let at_at = put_decimal(&mut *buf, number_at, u64::from(number));
    let place_at = put_bytes(&mut *buf, at_at, b" at ");
    let end = put_decimal(&mut *buf, place_at, place as u64);
    put_bytes(&mut *buf, end, b"\n")
}

// The line `too long` at the front of the buffer; its length.
#[tactic(auto, unfolding(crate::specs::Text::too_long_line))]
pub fn put_too_long(buf: &mut [u8]) -> usize
    ensures { (buf.new ≡ sets buf.old 0 too_long_line) × (result ≡ length too_long_line) }
{
    put_bytes(&mut *buf, 0, b"too long\n")
}

// The line `passed` at the front of the buffer; its length.
#[tactic(auto, unfolding(crate::specs::Text::passed_line))]
pub fn put_passed(buf: &mut [u8]) -> usize
    ensures { (buf.new ≡ sets buf.old 0 passed_line) × (result ≡ length passed_line) }
{
    put_bytes(&mut *buf, 0, b"passed\n")
}

// A number behind a mark.
pub fn put_marked(out: &mut [u8], at: usize, mark: &[u8], x: u64) -> usize
    requires { at + (length mark.now + 20) ≤ 18446744073709551615 }
    ensures out_after { (out.new ≡ sets out.old at (marked mark.now x)) × (result ≡ at + length (marked mark.now x)) }
    ensures few { result ≤ at + (length mark.now + 20) }
{
    let number_at = put_bytes(&mut *out, at, mark);
    put_decimal(&mut *out, number_at, x)
}

// A line of a word and a number at the front of the buffer.
pub fn put_numbered(out: &mut [u8], word: &[u8], number: u64) -> usize
    requires { length word.now ≤ 20 }
    ensures out_after { (out.new ≡ sets out.old 0 (numbered_line word.now number)) × (result ≡ length (numbered_line word.now number)) }
    ensures few { result ≤ 41 }
{
    let end = put_marked(&mut *out, 0, word, number);
    put_bytes(&mut *out, end, b"\n")
}

// The line `unreadable line L` at the front of the buffer.
#[tactic(auto, unfolding(crate::specs::Text::unreadable_line))]
pub fn put_unreadable(out: &mut [u8], line: u64) -> usize
    ensures out_after { (out.new ≡ sets out.old 0 (unreadable_line line)) × (result ≡ length (unreadable_line line)) }
    ensures few { result ≤ 41 }
{
    put_numbered(out, b"unreadable line ", line)
}

// So many spaces from `at` on; the place behind them.
pub fn put_spaces(buf: &mut [u8], at: usize, n: usize) -> usize
    requires { at + n ≤ 18446744073709551615 }
    ensures buf_after { (buf.new ≡ sets buf.old at (spaces n)) × (result ≡ at + length (spaces n)) }
    ensures few { result ≡ at + n }
{
    for i in 0..n {
        store(&mut *buf, at + i, b' ');
    }
    at + n
}

// How many bytes the number x is written with.
pub fn decimal_length(x: u64) -> usize
    ensures { (result ≡ length (decimal x)) × (result ≤ 20) }
{
    if x == 0 { 1 } else { x.ilog10() as usize + 1 }
}

// What stands from a place on; nothing behind the end.
fn rest(s: &[u8], from: usize) -> &[u8]
    ensures { result.now ≡ drop from s.now }
{
    s.get(from..).unwrap_or(&[])
}

pub fn is_digit(b: u8) -> bool
    ensures { result ≡ is_digit b }
{
    matches!(b, b'0'..=b'9')
}

// What the digits at the front stand for, and how many they are, if 64 bits hold it. It ends where they do not: no digit behind is looked at.
fn digits_in(s: &[u8]) -> Option<Digits>
    ensures { result ≡ front_number (digit_run s.now) }
{
    let mut value: u64 = 0;
    let mut next = 0;
    for b in s {
        if !is_digit(*b) {
            break;
        }
        value = value
            .checked_mul(10)?
            .checked_add(u64::from(b.saturating_sub(b'0')))?;
        next += 1;
    }
    Some(Digits { value, next })
}

// The number that the longest run of digits from `at` on stands for, if there is a digit and 64 bits hold it.
pub fn read_decimal(s: &[u8], at: usize) -> Option<Digits>
    ensures { result ≡ read_decimal s.now at }
{
    let digits = digits_in(rest(s, at))?;
    if digits.next == 0 {
        return None;
    }
    Some(Digits {
        value: digits.value,
        next: at + digits.next,
    })
}
