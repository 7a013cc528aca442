// What a plan must keep, refusals 2 to 5, and the whole way from bytes to a plan.
#![tactic(auto)]

ghost use Rattle.std.specs.Prelude.{◌≡◌, Ok};
ghost use Rattle.rules.specs.Records as records;
ghost use Rattle.rules.specs.Plan.{read_plan};
ghost use Rattle.plangather.specs.Gather.{gathered_of};
ghost use Rattle.planrules.specs.Reading.{Reads};

mod counts;
mod numbers;

use answers::Refusal;
use plan::Plan;
use units::RecordNo;

// Refusals 2 to 5 of a file that keeps the record rules, whose plan is gathered.
fn judged(s: &[u8], p: Plan) -> Result<Plan, Refusal>
    requires { gathered_of (records.records records.plan_follows 1 s.now) ≡ Ok p }
    ensures { Reads result (read_plan s.now) }
{
    let counts = p.counts;
    if let Some(k) = counts::first_bad(counts) {
        return Err(Refusal::BadCount((k + 2) as u8));
    }
    let firsts = numbers::first_bad(s, counts);
    let named = firsts.named;
    if let Some(n) = named {
        return Err(Refusal::NotThere(RecordNo(n)));
    }
    let ranged = firsts.ranged;
    if let Some(n) = ranged {
        return Err(Refusal::OutOfRange(RecordNo(n)));
    }
    if let Some(n) = planfits::first_unfit(p) {
        return Err(Refusal::Unfit(RecordNo(n)));
    }
    Ok(p)
}

// The plan that a file holds, or the first refusal of 1 to 5 that applies, at its lowest place.
pub fn read(s: &[u8]) -> Result<Plan, Refusal>
    ensures { Reads result (read_plan s.now) }
{
    match plangather::gather(s) {
        Ok(plan) => judged(s, plan),
        Err(place) => Err(Refusal::BadRecords(place)),
    }
}
