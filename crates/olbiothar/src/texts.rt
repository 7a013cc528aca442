// Plans as text (docs/RULES.md, sections 19 and 20) in C's numbers, and numbers in words.
ghost use Rattle.std.specs.Prelude.{◌≡◌};
ghost use Rattle.planreader.specs.Memory as reading;
ghost use Rattle.planwriter.specs.Printing as printing;
ghost use Rattle.meanings.specs.Meanings.{meaning};
ghost use Rattle.reasons.specs.Numbers.{reason_words};
ghost use Rattle.olbiothar.specs.Texts.{plan_said, text_said};
ghost use Rattle.olbiothar.specs.Words.{holds_words, words_left, words_said};

use meanings::put_meaning;
use outward::Answer;
use planreader::Unread;
use planwriter::Unprinted;
use reasons::{number_of, put_words};
use text::put_bytes;

fn text_said(printed: Result<usize, Unprinted>) -> Answer
    ensures { result ≡ text_said printed }
{
    match printed {
        Ok(length) => Answer {
            number: 0,
            place: length as u64,
        },
        Err(Unprinted::Refused(place)) => Answer {
            number: 1,
            place: place.0 as u64,
        },
        Err(Unprinted::Needs(bytes)) => Answer {
            number: 13,
            place: bytes as u64,
        },
        Err(Unprinted::TooLong) => Answer {
            number: 61,
            place: planwriter::LONGEST_PLAN as u64,
        },
    }
}

// The text of a plan, at the front of the lent bytes; its length, or 61, 1, 13.
pub fn olbiothar_plan_text(plan: &[u8], text: &mut [u8]) -> Answer
    ensures value { result ≡ text_said (printing.printing_for plan.now text.old) }
    ensures text_after { text.new ≡ printing.left_by plan.now text.old }
{
    let printed = planwriter::print(plan, text);
    text_said(printed)
}

// A plan from a text: the answer, and beside 60 the number of the reason.
#[repr(C)]
#[derive(Clone, Copy)]
pub struct PlanAnswer {
    pub answer: Answer,
    pub reason: u32,
}

fn plan_said(back: Result<usize, Unread>) -> PlanAnswer
    ensures { result ≡ plan_said back }
{
    match back {
        Ok(length) => PlanAnswer {
            answer: Answer {
                number: 0,
                place: length as u64,
            },
            reason: 0,
        },
        Err(Unread::Unreadable(unreadable)) => PlanAnswer {
            answer: Answer {
                number: 60,
                place: unreadable.line,
            },
            reason: number_of(unreadable.why),
        },
        Err(Unread::Needs(bytes)) => PlanAnswer {
            answer: Answer {
                number: 13,
                place: bytes as u64,
            },
            reason: 0,
        },
        Err(Unread::TooLong) => PlanAnswer {
            answer: Answer {
                number: 61,
                place: planreader::LONGEST as u64,
            },
            reason: 0,
        },
    }
}

// The plan of a text, at the front of the lent bytes; its length, or 61, 60 with its reason, 13.
pub fn olbiothar_text_plan(text: &[u8], plan: &mut [u8]) -> PlanAnswer
    ensures value { result ≡ plan_said (reading.back_for text.now plan.old) }
    ensures plan_after { plan.new ≡ reading.left_by text.now plan.old }
{
    let back = planreader::read(text, plan);
    plan_said(back)
}

// As many bytes have to be lent for words.
const LONGEST_WORDS: usize = 128;

// The words of an answer's number, at the front of the lent bytes, then a zero byte; their length without it. Where there is no room for the
// longest nothing is written, and the length is 0.
pub fn olbiothar_words(number: u32, text: &mut [u8]) -> u64
    ensures value { result ≡ words_said (holds_words text.old) (meaning number) }
    ensures text_after { text.new ≡ words_left (holds_words text.old) text.old (meaning number) }
{
    if text.len() < LONGEST_WORDS {
        return 0;
    }
    let end = put_meaning(&mut *text, 0, number);
    put_bytes(&mut *text, end, b"\0");
    end as u64
}

// The same of a reason's number.
pub fn olbiothar_reason_words(reason: u32, text: &mut [u8]) -> u64
    ensures value { result ≡ words_said (holds_words text.old) (reason_words reason) }
    ensures text_after { text.new ≡ words_left (holds_words text.old) text.old (reason_words reason) }
{
    if text.len() < LONGEST_WORDS {
        return 0;
    }
    let end = put_words(&mut *text, 0, reason);
    put_bytes(&mut *text, end, b"\0");
    end as u64
}
