// A history's lines as they are read (docs/HISTORY.md); the answers are written by `answerlines`.
#![tactic(auto)]

ghost use Rattle.std.specs.Prelude.{◌≡◌, replicate};
ghost use Rattle.laws.specs.Loops.{stores};
ghost use Rattle.rules.specs.Limits.{most_modules};
ghost use Rattle.text.specs.Lines.{is_word, whole_number, words};
ghost use Rattle.history.specs.Reading.{first_mode, first_result, first_word, fits, flag_in, input_from, is_free, may_end, mode_in, more_results, no_places, or_wrong, pair_in, plain, quiet_by, read_line, starting_from, unread, whole_line, with_mode, with_result, with_value, with_word, with_words, wrong_word};

use places::{flag_at, flag_byte};
use stationruns::{Input, Starting};
use text::lines::{Word, behind, comment_start, is_word, next_word, whole_number};
use units::{ModuleNo, TaskNo};

// No value is larger: it has 64 bits.
const LARGEST_VALUE: u64 = 18446744073709551615;
// No mode is larger: it has 8 bits.
const LARGEST_MODE: u64 = 255;

// Two numbers with `=` between them.
#[derive(Clone, Copy, PartialEq, Eq)]
pub struct Pair {
    pub place: u64,
    pub value: u64,
}

// What a list gives: at each place a value, which counts where its flag is set. A list of modules uses the first places.
#[derive(Clone, Copy)]
pub struct Places {
    pub values: [u64; TaskNo::MOST],
    pub given: [u8; TaskNo::MOST],
}

#[derive(Clone, Copy, PartialEq, Eq)]
pub enum What {
    // No word stands on the line.
    Blank,
    Begin,
    Tick,
    Quiet(u64),
    Unreadable,
}

// A line, and what its lists give: nothing where it has none.
#[derive(Clone, Copy)]
pub struct Line {
    pub what: What,
    pub results: Places,
    pub modes: Places,
}

// What may stand next on a line.
#[derive(Clone, Copy, PartialEq, Eq)]
pub enum Next {
    FirstWord,
    ResultsWord,
    // The first of the results, or `-`.
    Results,
    // One result more, or the word `modes`.
    MoreResults,
    ModesWord,
    // The first of the modes, or `-`.
    Modes,
    // One mode more, or the line's end.
    MoreModes,
    // How many ticks are quiet.
    Count,
    LineEnd,
    // A word stood where it may not.
    Never,
}

// What was read of a line so far.
#[derive(Clone, Copy)]
pub struct Read {
    pub next: Next,
    pub line: Line,
}

impl Places {
    fn none() -> Places
        ensures { result ≡ no_places }
    {
        Places {
            values: [0; TaskNo::MOST],
            given: [0; TaskNo::MOST],
        }
    }

    #[tactic(auto, unfolding(crate::specs::Reading::is_free))]
    fn is_free(self, place: u64) -> bool
        ensures { result ≡ is_free self place }
    {
        !flag_at(&self.given, place as usize)
    }

    fn with_value(mut self, place: u64, value: u64) -> Places
        ensures { result ≡ with_value self place value }
    {
        if place < TaskNo::MOST as u64 {
            self.values[place as usize] = value;
            self.given[place as usize] = flag_byte(true);
        }
        self
    }
}

#[tactic(auto, unfolding(crate::specs::Reading::pair_in))]
fn pair_in(word: &[u8]) -> Option<Pair>
    ensures { result ≡ pair_in word.now }
{
    let place = text::read_decimal(word, 0)?;
    let second = behind(word, place.next, b"=")?;
    let value = text::read_decimal(word, second)?;
    if value.next == word.len() {
        Some(Pair {
            place: place.value,
            value: value.value,
        })
    } else {
        None
    }
}

// The pair that a word is, if it names a place below `most` that is still free, and a value of at most `largest`.
fn fitting(word: &[u8], places: Places, most: u64, largest: u64) -> Option<Pair>
    ensures { result ≡ fits places most largest (pair_in word.now) }
{
    let pair = pair_in(word)?;
    if pair.place < most && pair.value <= largest && places.is_free(pair.place) {
        Some(pair)
    } else {
        None
    }
}

fn without_lists(what: What) -> Line
    ensures { result ≡ plain what }
{
    Line {
        what,
        results: Places::none(),
        modes: Places::none(),
    }
}

fn wrong_word() -> Read
    ensures { result ≡ wrong_word }
{
    Read {
        next: Next::Never,
        line: without_lists(What::Unreadable),
    }
}

// What follows a word that must be `wanted`.
fn only(word: &[u8], wanted: &[u8], next: Next, line: Line) -> Read
    ensures { result ≡ or_wrong (is_word wanted.now word.now) next line }
{
    if is_word(word, wanted) {
        Read { next, line }
    } else {
        wrong_word()
    }
}

#[tactic(auto, unfolding(crate::specs::Reading::first_word))]
fn first_word(word: &[u8]) -> Read
    ensures { result ≡ first_word word.now }
{
    if is_word(word, b"tick") {
        return Read {
            next: Next::ResultsWord,
            line: without_lists(What::Tick),
        };
    }
    if is_word(word, b"quiet") {
        return Read {
            next: Next::Count,
            line: without_lists(What::Unreadable),
        };
    }
    only(word, b"begin", Next::Modes, without_lists(What::Begin))
}

// A line with one result more.
#[tactic(auto, unfolding(crate::specs::Reading::with_result))]
fn with_result(line: Line, word: &[u8]) -> Read
    ensures { result ≡ with_result line word.now }
{
    let results = line.results;
    match fitting(word, results, TaskNo::MOST as u64, LARGEST_VALUE) {
        None => wrong_word(),
        Some(Pair { place, value }) => {
            let what = line.what;
            let modes = line.modes;
            Read {
                next: Next::MoreResults,
                line: Line {
                    what,
                    results: results.with_value(place, value),
                    modes,
                },
            }
        }
    }
}

// A line with one mode more.
#[tactic(auto, unfolding(crate::specs::Reading::with_mode))]
fn with_mode(line: Line, word: &[u8]) -> Read
    ensures { result ≡ with_mode line word.now }
{
    let modes = line.modes;
    match fitting(word, modes, ModuleNo::MOST as u64, LARGEST_MODE) {
        None => wrong_word(),
        Some(Pair { place, value }) => {
            let what = line.what;
            let results = line.results;
            Read {
                next: Next::MoreModes,
                line: Line {
                    what,
                    results,
                    modes: modes.with_value(place, value),
                },
            }
        }
    }
}

#[tactic(auto, unfolding(crate::specs::Reading::first_result))]
fn first_result(line: Line, word: &[u8]) -> Read
    ensures { result ≡ first_result line word.now }
{
    if is_word(word, b"-") {
        return Read {
            next: Next::ModesWord,
            line,
        };
    }
    with_result(line, word)
}

#[tactic(auto, unfolding(crate::specs::Reading::more_results))]
fn more_results(line: Line, word: &[u8]) -> Read
    ensures { result ≡ more_results line word.now }
{
    if is_word(word, b"modes") {
        return Read {
            next: Next::Modes,
            line,
        };
    }
    with_result(line, word)
}

#[tactic(auto, unfolding(crate::specs::Reading::first_mode))]
fn first_mode(line: Line, word: &[u8]) -> Read
    ensures { result ≡ first_mode line word.now }
{
    if is_word(word, b"-") {
        return Read {
            next: Next::LineEnd,
            line,
        };
    }
    with_mode(line, word)
}

fn quiet_count(word: &[u8]) -> Read
    ensures { result ≡ quiet_by (whole_number word.now) }
{
    match whole_number(word) {
        None => wrong_word(),
        Some(ticks) => Read {
            next: Next::LineEnd,
            line: without_lists(What::Quiet(ticks)),
        },
    }
}

// A line with one word more.
#[tactic(auto, unfolding(crate::specs::Reading::with_word))]
fn with_word(read: Read, word: &[u8]) -> Read
    ensures { result ≡ with_word read word.now }
{
    let next = read.next;
    let line = read.line;
    match next {
        Next::FirstWord => first_word(word),
        Next::ResultsWord => only(word, b"results", Next::Results, line),
        Next::Results => first_result(line, word),
        Next::MoreResults => more_results(line, word),
        Next::ModesWord => only(word, b"modes", Next::Modes, line),
        Next::Modes => first_mode(line, word),
        Next::MoreModes => with_mode(line, word),
        Next::Count => quiet_count(word),
        Next::LineEnd | Next::Never => wrong_word(),
    }
}

fn may_end(next: Next) -> bool
    ensures { result ≡ may_end next }
{
    matches!(next, Next::FirstWord | Next::MoreModes | Next::LineEnd)
}

#[tactic(auto, unfolding(crate::specs::Reading::whole_line))]
fn whole_line(read: Read) -> Line
    ensures { result ≡ whole_line read }
{
    if may_end(read.next) {
        read.line
    } else {
        without_lists(What::Unreadable)
    }
}

fn unread() -> Read
    ensures { result ≡ unread }
{
    Read {
        next: Next::FirstWord,
        line: without_lists(What::Blank),
    }
}

fn read_words(s: &[u8]) -> Line
    ensures { result ≡ whole_line (with_words unread (words s.now)) }
{
    let mut read = unread();
    let mut at = 0;
    while let Some(Word { from, to }) = next_word(s, at) {
        read = with_word(read, &s[from..to]);
        at = to;
    }
    whole_line(read)
}

// What a line says, without its line feed.
pub fn read_line(s: &[u8]) -> Line
    ensures { result ≡ read_line s.now }
{
    let end = comment_start(s);
    read_words(&s[..end])
}

// A mode has 8 bits, as `with_mode` reads it: the remainder is the value itself.
fn modes_of(values: &[u64; TaskNo::MOST]) -> [u8; ModuleNo::MOST]
    ensures { result ≡ stores (replicate most_modules 0) (mode_in values.now) most_modules }
{
    let mut modes = [0; ModuleNo::MOST];
    for m in 0..ModuleNo::MOST {
        modes[m] = (values[m] % (LARGEST_MODE + 1)) as u8;
    }
    modes
}

fn flags_of(given: &[u8; TaskNo::MOST]) -> [u8; ModuleNo::MOST]
    ensures { result ≡ stores (replicate most_modules 0) (flag_in given.now) most_modules }
{
    let mut flags = [0; ModuleNo::MOST];
    flags.copy_from_slice(&given[..ModuleNo::MOST]);
    flags
}

// What a tick is given by the lists of its line.
#[tactic(auto, unfolding(crate::specs::Reading::input_from))]
pub fn input_of(results: Places, modes: Places) -> Input
    ensures { result ≡ input_from results modes }
{
    let values = results.values;
    let given = results.given;
    Input {
        results: values,
        given,
        modes: modes_of(&modes.values),
        changed: flags_of(&modes.given),
    }
}

// What a beginning is given by the list of its line.
#[tactic(auto, unfolding(crate::specs::Reading::starting_from))]
pub fn starting_of(modes: Places) -> Starting
    ensures { result ≡ starting_from modes }
{
    Starting {
        modes: modes_of(&modes.values),
        given: flags_of(&modes.given),
    }
}
