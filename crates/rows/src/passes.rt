// The lent list of frame rows, a slice of frame structs: filled, looked through for rule 25, and cleared.
ghost use Rattle.std.specs.Prelude.{◌≡◌, ltb, replicate, ◌≤◌};
ghost use Rattle.std.specs.List.{list_any};
ghost use Rattle.rules.specs.Limits.{most_frames};
ghost use Rattle.rows.specs.Frames.{frame_of, within_places, rows_with, frame_in, end_of, filled};
ghost use Rattle.rows.specs.Passes.{looked_row, cleared_row, found_after, rows_after};

use units::{Frame, TaskNo, TaskWord, Ticks};

// Arrays of zeros, to be lent.
pub fn zero_bytes() -> [u8; Frame::MOST]
    ensures { result ≡ replicate most_frames 0 }
{
    [0; Frame::MOST]
}

pub fn zero_words() -> [u32; Frame::MOST]
    ensures { result ≡ replicate most_frames 0 }
{
    [0; Frame::MOST]
}

fn framed(task: TaskNo, release: Ticks, deadline: Ticks, start: Ticks) -> Frame
    ensures { result ≡ frame_of task.0 release.0 deadline.0 start.0 }
{
    Frame {
        task: TaskWord(u32::from(task.0)),
        release,
        deadline,
        start,
    }
}

// The frames that have places.
#[tactic(auto, unfolding(crate::specs::Frames::within_places))]
fn within(k: usize) -> usize
    ensures value { result ≡ within_places k }
    ensures room { result ≤ most_frames }
{
    k.min(Frame::MOST)
}

// How many of the lent rows have a frame: none where too few are lent.
#[tactic(auto, unfolding(crate::specs::Frames::end_of))]
fn end_of(frames: usize, lent: usize) -> usize
    ensures value { result ≡ end_of frames lent }
    ensures room { result ≤ lent }
{
    if lent < Frame::MOST {
        0
    } else {
        within(frames)
    }
}

// Row k: the frames by number, each with its start, and zero rows behind them.
#[tactic(auto, unfolding(crate::specs::Frames::frame_in, crate::specs::Frames::frame_at))]
fn row_at<'a>(
    k: usize,
    frames: usize,
    tasks: &'a [u8; Frame::MOST],
    releases: &'a [u32; Frame::MOST],
    deadlines: &'a [u32; Frame::MOST],
    starts: &'a [u32; Frame::MOST],
) -> Frame
    ensures { result ≡ frame_in (rows_with frames tasks.now releases.now deadlines.now starts.now) k }
{
    if k < within(frames) {
        return framed(
            TaskNo(tasks[k]),
            Ticks(releases[k]),
            Ticks(deadlines[k]),
            Ticks(starts[k]),
        );
    }
    Frame::zero()
}

// The frames by number with their starts, then zero rows; too few rows stay as they were.
pub fn fill<'a>(
    rows: &mut [Frame],
    frames: usize,
    tasks: &'a [u8; Frame::MOST],
    releases: &'a [u32; Frame::MOST],
    deadlines: &'a [u32; Frame::MOST],
    starts: &'a [u32; Frame::MOST],
)
    ensures { rows.new ≡ filled (rows_with frames tasks.now releases.now deadlines.now starts.now) rows.old }
{
    if rows.len() < Frame::MOST {
        return;
    }
    rows.fill(Frame::zero());
    for k in 0..within(frames) {
        rows[k] = row_at(k, frames, tasks, releases, deadlines, starts);
    }
}

fn one_early(rows: &[Frame]) -> bool
    ensures { result ≡ list_any (λ row. ltb row.start.0 row.release.0) rows.now }
{
    rows.iter().any(|row| row.start < row.release)
}

// Rule 25 on the rows of so many frames: whether one starts before its release, or `found` holds already.
pub fn some_early(rows: &[Frame], frames: usize, found: bool) -> bool
    ensures { result ≡ found_after looked_row frames found rows.now }
{
    let end = end_of(frames, rows.len());
    found || one_early(&rows[..end])
}

// Zero rows for the frames where a check refuses; too few rows stay as they were.
pub fn clear(rows: &mut [Frame], frames: usize, refused: bool) -> bool
    ensures found { result ≡ found_after cleared_row frames refused rows.old }
    ensures rows_value { rows.new ≡ rows_after cleared_row frames refused rows.old }
{
    if refused {
        let end = end_of(frames, rows.len());
        rows[..end].fill(Frame::zero());
    }
    refused
}
