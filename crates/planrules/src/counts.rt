// Refusal 2: each count of things is within its range.
ghost use Rattle.std.specs.Prelude.{◌≡◌, ◌<◌};
ghost use Rattle.laws.specs.Lists.{first_bad, up_to};
ghost use Rattle.places.specs.Spot.{spot_of};
ghost use Rattle.planrules.specs.Tests.{counts_fit};

use plan::{Connection, Invocation};
use units::{ModeNo, ModuleNo, NodeNo, TaskNo};

// By kind from 2 on: nodes, modules, modes, tasks, invocations, connections.
const LEAST: [usize; 6] = [1, 1, 1, 1, 1, 0];

const MOST: [usize; 6] = [
    NodeNo::MOST,
    ModuleNo::MOST,
    ModeNo::MOST,
    TaskNo::MOST,
    Invocation::MOST,
    Connection::MOST,
];

#[tactic(auto, unfolding(crate::specs::Tests::counts_fit, rules::specs::Plan::least_counts, rules::specs::Plan::most_counts))]
fn fits(counts: [usize; 8], k: usize) -> bool
    requires { k < 6 }
    ensures { result ≡ counts_fit counts k }
{
    let count = counts[2 + k];
    LEAST[k] <= count && count <= MOST[k]
}

// How far behind kind 2 the first kind stands whose count is outside its range.
pub fn first_bad(counts: [usize; 8]) -> Option<usize>
    ensures { result ≡ spot_of (first_bad (counts_fit counts) (up_to 6)) }
{
    for k in 0..6 {
        if !fits(counts, k) {
            return Some(k);
        }
    }
    None
}
