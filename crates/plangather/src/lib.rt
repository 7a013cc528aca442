// A plan gathered from the records of a file as they are met: refusal 1.
#![tactic(auto)]

ghost use Rattle.std.specs.Prelude.{◌≡◌, ◌+◌, ◌^◌, ◌<◌, set};
ghost use Rattle.rules.specs.Records.{plan_follows, record_of};
ghost use Rattle.rules.specs.Records as rules;
ghost use Rattle.plangather.specs.Gather.{number_of, counted_more, with_record, gathered_of};

use little::read8;
use plan::{Plan, bodies};
use records::{Sort, Step};
use units::Offset;

// The number of the next thing of a kind, which is counted; 0 for the bus and the number of nodes.
#[tactic(auto, unfolding(crate::specs::Gather::number_of, crate::specs::Gather::counted_more, crate::specs::Gather::is_thing))]
fn counted(counts: &mut [usize; 8], kind: u8) -> usize
    requires { number_of counts.old kind + 1 < 2 ^ 64 }
    ensures { (result ≡ number_of counts.old kind) × (counts.new ≡ counted_more counts.old kind) }
{
    match kind {
        fields::module::KIND..=fields::connection::KIND => {
            let n = counts[usize::from(kind)];
            counts[usize::from(kind)] = n + 1;
            n
        }
        _ => 0,
    }
}

// A thing without a place left is not stored.
fn store<T: Copy>(places: &mut [T], n: usize, thing: T)
    ensures { places.new ≡ set places.old n thing }
{
    if n < places.len() {
        places[n] = thing;
    }
}

// Takes in what a record says, by its kind; a kind that no plan has changes nothing.
fn take_in(p: &mut Plan, kind: u8, body: &[u8])
    requires { number_of p.old.counts kind + 1 < 2 ^ 64 }
    ensures { p.new ≡ with_record p.old (record_of kind body.now) }
{
    let n = counted(&mut p.counts, kind);
    match kind {
        fields::bus::KIND => p.bus = bodies::bus(body),
        fields::framed_bus::KIND => p.bus = bodies::framed_bus(body),
        fields::nodes::KIND => p.counts[2] = usize::from(read8(body, fields::nodes::COUNT)),
        fields::module::KIND => store(&mut p.modules, n, bodies::module(body)),
        fields::mode::KIND => store(&mut p.modes, n, bodies::mode(body)),
        fields::task::KIND => store(&mut p.tasks, n, bodies::task(body)),
        fields::invocation::KIND => store(&mut p.invocations, n, bodies::invocation(body)),
        fields::connection::KIND => store(&mut p.connections, n, bodies::connection(body)),
        _ => {}
    }
}

// The plan that the records of a file make, or the place where the record rules are broken.
pub fn gather(s: &[u8]) -> Result<Plan, Offset>
    ensures { result ≡ gathered_of (rules.records plan_follows 1 s.now) }
{
    let mut p = Plan::empty();
    let mut previous: u8 = 0;
    let mut at: usize = 0;
    loop {
        match records::next(s, Sort::Plan, previous, at) {
            Step::Record { kind, body, next } => {
                take_in(&mut p, kind, records::body(s, body, next));
                previous = kind;
                at = next;
            }
            Step::End => return Ok(p),
            Step::Wrong(place) => return Err(place),
        }
    }
}
