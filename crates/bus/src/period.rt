// The bus period P and the grid G of mode changes. Whether P divides G is told from each run's period alone: no product is made that
// could wrap. Only then is P made, and since it divides G all the way it is never above G.
ghost use Rattle.std.specs.Prelude.{◌≡◌, true, cond, ◌≤◌, ◌<◌};
ghost use Rattle.std.specs.List.{list_all};
ghost use Rattle.laws.specs.Numbers as laws;
ghost use Rattle.plan.specs.Memory.{seen};
ghost use Rattle.rules.specs.Limits.{most_invocations};
ghost use Rattle.rules.specs.Traffic.{period_of_runs};
ghost use Rattle.bus.specs.Period.{grid_marked};
ghost use Rattle.bus.specs.Runs.{runs_seen};

use crate::BYTES;
use crate::lists::modes;
use crate::runs::Runs;
use figures::{divides, gcd, lcm};
use plan::Plan;
use units::Ticks;

fn with_mode(counts: bool, period: Ticks, switch: Ticks, grid: Ticks) -> Ticks
    ensures { result.0 ≡ cond counts (laws.gcd period.0 (laws.gcd switch.0 grid.0)) grid.0 }
{
    if counts {
        Ticks(gcd(period.0, gcd(switch.0, grid.0)))
    } else {
        grid
    }
}

pub fn switch_grid(p: Plan, marks: [bool; BYTES]) -> Ticks
    ensures { result.0 ≡ grid_marked (seen p) marks }
{
    let mut grid = Ticks(0);
    for mode in modes(&p) {
        grid = with_mode(
            marks[usize::from(mode.home.0)],
            mode.period,
            mode.switch,
            grid,
        );
    }
    grid
}

fn all_divide(periods: &[u32], number: u32) -> bool
    ensures { result ≡ list_all (λ n. laws.divides n number) periods.now }
{
    periods.iter().all(|period| divides(*period, number))
}

// P divides the grid exactly when each run's period does.
pub fn period_divides(runs: Runs, grid: Ticks) -> bool
    requires { runs.count ≤ most_invocations }
    ensures { result ≡ laws.divides (period_of_runs (runs_seen runs)) grid.0 }
{
    all_divide(&runs.periods[..runs.count], grid.0)
}

pub fn bus_period(runs: Runs, grid: Ticks) -> Ticks
    requires count_le_most_invocations { runs.count ≤ most_invocations }
    requires grid_nonzero { 0 < grid.0 }
    requires grid_value { laws.divides (period_of_runs (runs_seen runs)) grid.0 ≡ true }
    ensures { (result.0 ≡ period_of_runs (runs_seen runs)) × (result.0 ≤ grid.0) }
{
    let mut period: u32 = 1;
    for each in &runs.periods[..runs.count] {
        period = lcm(*each, period) as u32;
    }
    Ticks(period)
}
