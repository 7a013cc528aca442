// The whole of making a table: from a plan file to the table in a lent buffer, with the frame rows in arrays that are lent.
#![tactic(auto)]

ghost use Rattle.std.specs.Prelude.{◌≡◌, Err, length, replicate, true};
ghost use Rattle.rules.specs.Limits.{most_frames};
ghost use Rattle.rules.specs.Frames.{layout_of};
ghost use Rattle.line.specs.Line.{drawing};
ghost use Rattle.rows.specs.Frames.{NoRows};
ghost use Rattle.linetable.specs.Making.{Makes};
ghost use Rattle.linetable.specs.Steps.{Stands, laid_table};
ghost use Rattle.maker.specs.Making.{PassesCheck, is_edition, for_consumers, lent_for, making};

use answers::Refusal;
use line::Line;
use linetable::placed_table;
use units::Frame;

// Editions by number: every message is sent, or only what a consumer reads.
pub const BASIC: u8 = 0;

pub const CONSUMERS: u8 = 1;

pub fn edition_of(consumers: bool) -> u8
    ensures { (is_edition result ≡ true) × (for_consumers result ≡ consumers) }
{
    if consumers { CONSUMERS } else { BASIC }
}

// What making a table comes to, and how many frames stand in the lent arrays: none where the plan is refused.
#[derive(Clone, Copy)]
pub struct MadeRows {
    pub answer: Result<usize, Refusal>,
    pub frames: usize,
}

fn refused(why: Refusal) -> MadeRows
    ensures { result ≡ record { answer = Err why; frames = 0 } }
{
    MadeRows {
        answer: Err(why),
        frames: 0,
    }
}

// The table of a line, or refusal 12 or 13: then its frames are taken back.
fn made_of(
    line: Line,
    buf: &mut [u8],
    tasks: &mut [u8; Frame::MOST],
    releases: &mut [u32; Frame::MOST],
    deadlines: &mut [u32; Frame::MOST],
    starts: &mut [u32; Frame::MOST],
) -> MadeRows
    requires stands { Stands (drawing line tasks.old releases.old deadlines.old) }
    requires starts_value { starts.old ≡ replicate most_frames 0 }
    ensures { (s : Stands (drawing line tasks.old releases.old deadlines.old)) → Makes (making result tasks.new releases.new deadlines.new starts.new) buf.old buf.new (laid_table (layout_of s.plan) (length buf.old)) }
{
    let answer = placed_table(line, tasks, releases, deadlines, starts, &mut *buf);
    match answer {
        Ok(_) => MadeRows {
            answer,
            frames: line.frames,
        },
        Err(why) => {
            *tasks = [0; Frame::MOST];
            *releases = [0; Frame::MOST];
            *deadlines = [0; Frame::MOST];
            refused(why)
        }
    }
}

// The same as `made`, into arrays that are zeros before: who has them so need not clear them twice.
pub fn made_in(
    plan: &[u8],
    edition: u8,
    lent: usize,
    buf: &mut [u8],
    tasks: &mut [u8; Frame::MOST],
    releases: &mut [u32; Frame::MOST],
    deadlines: &mut [u32; Frame::MOST],
    starts: &mut [u32; Frame::MOST],
) -> MadeRows
    requires { NoRows tasks.old releases.old deadlines.old starts.old }
    ensures makes { Makes (making result tasks.new releases.new deadlines.new starts.new) buf.old buf.new (lent_for edition plan.now lent (length buf.old)) }
    ensures passes_check { PassesCheck plan.now result.answer buf.new }
{
    if lent < Frame::MOST {
        return refused(Refusal::TooFewRows);
    }
    if CONSUMERS < edition {
        return refused(Refusal::NoEdition(edition));
    }
    let laid = line::lay_out(plan, edition == CONSUMERS, tasks, releases, deadlines);
    match laid {
        Ok(line) => made_of(line, &mut *buf, tasks, releases, deadlines, starts),
        Err(why) => refused(why),
    }
}

// A table from a plan file in an edition, with `lent` frame rows lent; or the first refusal of 19, 62 and 1 to 13 that applies, at its
// lowest place. The frames by number and their starts go into the arrays, whatever these held; where it refuses they are zeros.
pub fn made(
    plan: &[u8],
    edition: u8,
    lent: usize,
    table: &mut [u8],
    tasks: &mut [u8; Frame::MOST],
    releases: &mut [u32; Frame::MOST],
    deadlines: &mut [u32; Frame::MOST],
    starts: &mut [u32; Frame::MOST],
) -> MadeRows
    ensures makes { Makes (making result tasks.new releases.new deadlines.new starts.new) table.old table.new (lent_for edition plan.now lent (length table.old)) }
    ensures passes_check { PassesCheck plan.now result.answer table.new }
{
    *tasks = [0; Frame::MOST];
    *releases = [0; Frame::MOST];
    *deadlines = [0; Frame::MOST];
    *starts = [0; Frame::MOST];
    made_in(
        plan,
        edition,
        lent,
        &mut *table,
        tasks,
        releases,
        deadlines,
        starts,
    )
}
