// The beginning of a played station: what it keeps of a passed plan and table, and its starting modes.
#![tactic(auto)]

ghost use Rattle.rules.specs.Station as rules;
ghost use Rattle.stationruns.specs.Inputs.{starting_at};
ghost use Rattle.beginning.specs.Begins.{Begins};

use checker::passed;
use keeping::kept;
use starting::{Begun, begin_with, refused};
use stationruns::Starting;
use units::Frame;

// A station begins only with a passed table, else the checker's number is given; and with one mode of its own for each module.
pub fn begin(plan: &[u8], table: &[u8], starting: Starting) -> Begun
    ensures { Begins result (rules.begin plan.now table.now (starting_at starting)) }
{
    let mut tasks: [u8; Frame::MOST] = [0; Frame::MOST];
    let mut deadlines: [u32; Frame::MOST] = [0; Frame::MOST];
    let mut starts: [u32; Frame::MOST] = [0; Frame::MOST];
    match passed(plan, table, &mut tasks, &mut deadlines, &mut starts) {
        Err(why) => refused(why),
        Ok(passing) => {
            let station = kept(passing.plan, passing.line, &tasks, &deadlines, &starts);
            begin_with(station, starting)
        }
    }
}
