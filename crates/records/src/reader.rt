// A record reader: it holds the lent file and its place.
ghost use Rattle.std.specs.Prelude.{◌≡◌, ◌-◌, ◌≤◌, length, take, drop};
ghost use Rattle.records.specs.Reader.{follows, next_at, record_at};

use crate::{Sort, Step, kinds};
use units::Offset;

#[derive(Clone, Copy)]
pub struct Reader<'a> {
    pub src: &'a [u8],
    pub at: usize,
}

fn follows(sort: Sort, previous: u8, kind: u8) -> bool
    ensures { result ≡ follows sort previous kind }
{
    match sort {
        Sort::Plan => kinds::plan_follows(previous, kind),
        Sort::Table => kinds::table_follows(previous, kind),
    }
}

impl<'a> Reader<'a> {
    // What stands at its place, behind a record of the kind `previous`.
    #[tactic(auto, unfolding(crate::specs::Reader::next_at, crate::specs::Kinds::length_of))]
    pub fn next(self, sort: Sort, previous: u8) -> Step
        ensures { result ≡ next_at sort self.entry.src.now previous self.entry.at }
    {
        let end = self.src.len();
        if end <= self.at {
            return Step::Wrong(Offset(end));
        }
        let kind = self.src[self.at];
        let length = match kinds::body_length(kind) {
            Some(length) if follows(sort, previous, kind) => usize::from(length),
            _ => return Step::Wrong(Offset(self.at)),
        };
        let body = self.at + fields::BODY;
        if kind == fields::end::KIND {
            return if body == end {
                Step::End
            } else {
                Step::Wrong(Offset(body))
            };
        }
        if length <= end - body {
            Step::Record {
                kind,
                body,
                next: body + length,
            }
        } else {
            Step::Wrong(Offset(end))
        }
    }

    // The body that begins at its place and ends before `end`.
    pub fn body(self, end: usize) -> &'a [u8]
        requires { (self.at ≤ end) × (end ≤ length self.src.now) }
        ensures { result.now ≡ take (end - self.entry.at) (drop self.entry.at self.entry.src.now) }
    {
        &self.src[self.at..end]
    }
}
