// The frames by number in memory, in arrays that are lent.
ghost use Rattle.std.specs.Prelude.{◌≡◌, true, replicate, ◌≤◌};
ghost use Rattle.laws.specs.Lists.{all};
ghost use Rattle.rules.specs.Limits.{longest_time, most_frames, most_invocations};
ghost use Rattle.rules.specs.Readers.{read_messages};
ghost use Rattle.rules.specs.Frames.{pairs_of};
ghost use Rattle.bus.specs.Readers.{readers_seen};
ghost use Rattle.bus.specs.Runs.{runs_seen};
ghost use Rattle.frames.specs.Walk.{is_fair, AreRead};
ghost use Rattle.frames.specs.Laid.{frames_with, frames_laid};

use crate::derive;
use bus::runs::Runs;
use plan::Invocation;
use units::{Frame, TaskNo, Ticks};

// Fills an array of zeros for each number of a frame; zeros stay behind. The count is one more than there are places where there are too
// many frames.
pub fn lay<'a>(
    runs: Runs,
    reader_counts: &'a [usize; TaskNo::MOST],
    reader_periods: &'a [u32; TaskNo::MOST * Invocation::MOST],
    period: Ticks,
    tasks: &mut [u8; Frame::MOST],
    releases: &mut [u32; Frame::MOST],
    deadlines: &mut [u32; Frame::MOST],
) -> usize
    requires count_le_most_invocations { runs.count ≤ most_invocations }
    requires period_le_longest_time { period.0 ≤ longest_time }
    requires runs_value { all (is_fair period.0) (runs_seen runs) ≡ true }
    requires are_read { AreRead (readers_seen reader_counts.now reader_periods.now) period.0 (runs_seen runs) }
    requires tasks_value { (tasks.old ≡ replicate most_frames 0) × (releases.old ≡ replicate most_frames 0) × (deadlines.old ≡ replicate most_frames 0) }
    ensures { frames_with result tasks.new releases.new deadlines.new ≡ frames_laid (pairs_of (read_messages (readers_seen reader_counts.now reader_periods.now) period.0 (runs_seen runs))) }
{
    let n = runs.count;
    let walked = derive(
        &runs.tasks,
        &runs.periods,
        &runs.worsts,
        reader_counts,
        reader_periods,
        n,
        period,
        tasks,
        releases,
        deadlines,
    );
    walked.count
}
