// Refusals 3 and 4: what each record must keep by itself, and the first record that does not.
ghost use Rattle.std.specs.Prelude.{◌≡◌, true, ◌&&◌, leb};
ghost use Rattle.rules.specs.Records as records;
ghost use Rattle.rules.specs.Plan.{names_are_there, numbers_are_within};
ghost use Rattle.planfits.specs.Scans.{earlier_of, is_ok};
ghost use Rattle.planrules.specs.Tests.{listed, firsts_of, bus_is_within};
ghost use Rattle.plan.specs.Memory.{bus_seen};

use plan::{Bus, Invocation, Mode, Task, bodies};
use records::{Sort, Step};
use units::{ByteBits, RecordNo};

// The first record that breaks refusal 3's rule, that what a number names is there, and the first that breaks refusal 4's, that
// every other number is within its range.
#[derive(Clone, Copy)]
pub struct Firsts {
    pub named: Option<usize>,
    pub ranged: Option<usize>,
}

fn within(low: u32, x: u32, high: u32) -> bool
    ensures { result ≡ (leb low x && leb x high) }
{
    low <= x && x <= high
}

#[tactic(auto, unfolding(rules::specs::Plan::names_are_there, rules::specs::Records::record_of, rules::specs::Records::fields, rules::specs::Records::kinds, plan::specs::Memory::module_laid, rules::specs::Plan::module_of, plan::specs::Memory::mode_laid, rules::specs::Plan::mode_of, plan::specs::Memory::task_laid, rules::specs::Plan::task_of, plan::specs::Memory::invocation_laid, rules::specs::Plan::invocation_of, plan::specs::Memory::connection_laid, rules::specs::Plan::connection_of))]
fn names_are_there(counts: [usize; 8], kind: u8, body: &[u8]) -> bool
    ensures { result ≡ names_are_there (listed counts) (records.record_of kind body.now) }
{
    match kind {
        fields::module::KIND => bodies::module(body).node.place() < counts[2],
        fields::mode::KIND => bodies::mode(body).home.place() < counts[3],
        fields::task::KIND => bodies::task(body).home.place() < counts[3],
        fields::invocation::KIND => {
            let i = bodies::invocation(body);
            i.mode.place() < counts[4] && i.task.place() < counts[5]
        }
        fields::connection::KIND => {
            let c = bodies::connection(body);
            c.producer.place() < counts[5] && c.consumer.place() < counts[5]
        }
        _ => true,
    }
}

#[tactic(auto, unfolding(crate::specs::Tests::bus_is_within, plan::specs::Memory::bus_seen))]
fn bus_is_within(b: Bus) -> bool
    ensures { result ≡ bus_is_within (bus_seen b) }
{
    within(1, b.rate, Bus::FASTEST)
        && within(0, b.overhead.0, Bus::MOST_OVERHEAD)
        && within(0, b.least.0, Bus::MOST_PAYLOAD)
        && within(1, b.most.0, Bus::MOST_PAYLOAD)
        && within(0, b.gap.0, Bus::WIDEST_GAP)
        && within(1, b.resolution.0, Bus::COARSEST)
        && within(
            u32::from(ByteBits::FEWEST),
            u32::from(b.byte_bits.0),
            u32::from(ByteBits::MOST),
        )
        && b.least <= b.most
}

#[tactic(auto, unfolding(rules::specs::Plan::numbers_are_within, rules::specs::Plan::payloads_ordered, rules::specs::Plan::is_bus_record, rules::specs::Records::is_bus, rules::specs::Records::record_of, rules::specs::Records::fields, rules::specs::Records::kinds, plan::specs::Memory::mode_laid, rules::specs::Plan::mode_of))]
fn mode_is_within(body: &[u8]) -> bool
    ensures { result ≡ numbers_are_within (records.record_of 4 body.now) }
{
    let m = bodies::mode(body);
    within(1, m.period.0, Mode::LONGEST) && within(1, m.switch.0, Mode::LONGEST)
}

#[tactic(auto, unfolding(rules::specs::Plan::numbers_are_within, rules::specs::Plan::payloads_ordered, rules::specs::Plan::is_bus_record, rules::specs::Records::is_bus, rules::specs::Records::record_of, rules::specs::Records::fields, rules::specs::Records::kinds, plan::specs::Memory::task_laid, rules::specs::Plan::task_of))]
fn task_is_within(body: &[u8]) -> bool
    ensures { result ≡ numbers_are_within (records.record_of 5 body.now) }
{
    let t = bodies::task(body);
    within(1, t.size.0, Task::LARGEST) && within(1, t.worst.0, Task::LONGEST)
}

#[tactic(auto, unfolding(rules::specs::Plan::numbers_are_within, rules::specs::Plan::payloads_ordered, rules::specs::Plan::is_bus_record, rules::specs::Records::is_bus, rules::specs::Records::record_of, rules::specs::Records::fields, rules::specs::Records::kinds, plan::specs::Memory::invocation_laid, rules::specs::Plan::invocation_of))]
fn rate_is_within(body: &[u8]) -> bool
    ensures { result ≡ numbers_are_within (records.record_of 6 body.now) }
{
    within(1, bodies::invocation(body).rate, Invocation::MOST_OFTEN)
}

fn numbers_are_within(kind: u8, body: &[u8]) -> bool
    ensures { result ≡ numbers_are_within (records.record_of kind body.now) }
{
    match kind {
        fields::bus::KIND => bus_is_within(bodies::bus(body)),
        fields::framed_bus::KIND => bus_is_within(bodies::framed_bus(body)),
        fields::mode::KIND => mode_is_within(body),
        fields::task::KIND => task_is_within(body),
        fields::invocation::KIND => rate_is_within(body),
        _ => true,
    }
}

// What was found before, else the n-th record if it is bad.
fn earlier(found: Option<usize>, good: bool, n: RecordNo) -> Option<usize>
    ensures { result ≡ earlier_of found good n.0 }
{
    if good { found } else { found.or(Some(n.0)) }
}

// The numbers of the first records that break the two rules, in a file that keeps the record rules.
pub fn first_bad(s: &[u8], counts: [usize; 8]) -> Firsts
    requires { is_ok (records.records records.plan_follows 1 s.now) ≡ true }
    ensures { result ≡ firsts_of counts (records.records records.plan_follows 1 s.now) }
{
    let mut previous: u8 = 0;
    let mut at: usize = 0;
    let mut n: usize = 0;
    let mut named = None;
    let mut ranged = None;
    loop {
        match records::next(s, Sort::Plan, previous, at) {
            Step::Record {
                kind,
                body: start,
                next,
            } => {
                let body = records::body(s, start, next);
                let number = RecordNo(n);
                named = earlier(named, names_are_there(counts, kind, body), number);
                ranged = earlier(ranged, numbers_are_within(kind, body), number);
                previous = kind;
                at = next;
                n += 1;
            }
            Step::End => return Firsts { named, ranged },
            Step::Wrong(_) => return Firsts { named, ranged },
        }
    }
}
