// Text parted into lines, and a line into words.
ghost use Rattle.std.specs.Prelude.{◌≡◌, ◌+◌, ◌≤◌, ◌<◌, length, take_while};
ghost use Rattle.text.specs.Lines.{behind_end, behind_word, is_blank, is_end, is_letter, is_other, is_word, line_end, next_word, run_end, uncommented, whole_number};

use crate::{read_decimal, rest};

// A word by its places: its first byte's, and the one behind its last.
#[derive(Clone, Copy, PartialEq, Eq)]
pub struct Word {
    pub from: usize,
    pub to: usize,
}

// The place behind a word, if the word stands at a place.
pub fn behind(s: &[u8], at: usize, word: &[u8]) -> Option<usize>
    ensures { result ≡ behind_word s.now at word.now }
{
    if rest(s, at).starts_with(word) {
        Some(at + word.len())
    } else {
        None
    }
}

pub fn is_end(s: &[u8], end: Option<usize>) -> bool
    ensures { result ≡ is_end s.now end }
{
    end == Some(s.len())
}

// Whether the text is the word, and nothing more.
#[tactic(auto, unfolding(crate::specs::Lines::is_word))]
pub fn is_word(s: &[u8], word: &[u8]) -> bool
    ensures { result ≡ is_word word.now s.now }
{
    is_end(s, behind(s, 0, word))
}

// How many bytes at the front are not `stop`.
fn others(s: &[u8], stop: u8) -> usize
    ensures value { result ≡ length (take_while (is_other stop) s.now) }
    ensures within { result ≤ length s.now }
{
    s.iter().take_while(|b| **b != stop).count()
}

// Where `stop` stands from a place on, or the end.
fn byte_end(s: &[u8], from: usize, stop: u8) -> usize
    ensures value { result ≡ run_end (is_other stop) s.now from }
    ensures within { (from ≤ length s.now → result ≤ length s.now) × (from ≤ result) }
{
    from + others(rest(s, from), stop)
}

// Where the line that begins at a place ends: at a line feed, or at the end.
#[tactic(auto, unfolding(crate::specs::Lines::line_end, crate::specs::Lines::run_end))]
pub fn line_end(s: &[u8], from: usize) -> usize
    ensures value { result ≡ line_end s.now from }
    ensures within { (from ≤ length s.now → result ≤ length s.now) × (from ≤ result) }
{
    byte_end(s, from, b'\n')
}

// The place behind a line that ends at a place: behind its line feed, which the last line may lack.
pub fn behind_end(s: &[u8], end: usize) -> usize
    ensures { result ≡ behind_end s.now end }
{
    if end < s.len() { end + 1 } else { s.len() }
}

// Where a line's comment begins, or the line's end.
#[tactic(auto, unfolding(crate::specs::Lines::uncommented, crate::specs::Lines::run_end))]
pub fn comment_start(s: &[u8]) -> usize
    ensures value { result ≡ length (uncommented s.now) }
    ensures within { result ≤ length s.now }
{
    byte_end(s, 0, b'#')
}

#[tactic(auto, unfolding(crate::specs::Lines::is_blank))]
fn is_blank(b: u8) -> bool
    ensures { result ≡ is_blank b }
{
    matches!(b, b' ' | b'\t' | b'\r')
}

// How many blanks, or letters, stand at the front.
fn blanks(s: &[u8]) -> usize
    ensures value { result ≡ length (take_while is_blank s.now) }
    ensures within { result ≤ length s.now }
{
    s.iter().take_while(|b| is_blank(**b)).count()
}

fn letters(s: &[u8]) -> usize
    ensures value { result ≡ length (take_while is_letter s.now) }
    ensures within { result ≤ length s.now }
{
    s.iter().take_while(|b| !is_blank(**b)).count()
}

// The first word from a place on.
pub fn next_word(s: &[u8], at: usize) -> Option<Word>
    ensures { result ≡ next_word s.now at }
{
    let from = at + blanks(rest(s, at));
    if from < s.len() {
        let to = from + letters(rest(s, from));
        return Some(Word { from, to });
    }
    None
}

// The number that a text is, if it is digits and nothing more, and 64 bits hold it.
#[tactic(auto, unfolding(crate::specs::Lines::whole_number))]
pub fn whole_number(s: &[u8]) -> Option<u64>
    ensures { result ≡ whole_number s.now }
{
    let digits = read_decimal(s, 0)?;
    if digits.next == s.len() {
        Some(digits.value)
    } else {
        None
    }
}
