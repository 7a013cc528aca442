// Which frame each data row names: rule 7.23, and the start that a table gives to each frame.
#![tactic(auto)]

ghost use Rattle.std.specs.Prelude.{◌≡◌, replicate, ◌≤◌};
ghost use Rattle.laws.specs.Lists.{first_bad, up_to};
ghost use Rattle.laws.specs.Loops.{stores};
ghost use Rattle.rules.specs.Limits.{most_frames};
ghost use Rattle.naming.specs.Places.{key_of, Numbered, Parted, has_key, number_of, number_at, is_new, spread};
ghost use Rattle.places.specs.Spot.{spot_of};

use units::{Frame, TaskNo, Ticks};

// A task's number is a byte, so that so many have room below each deadline.
const BYTES: u64 = 256;

// Frames are numbered by deadline, then by task.
fn key(deadline: Ticks, task: TaskNo) -> u64
    ensures { result ≡ key_of deadline.0 task.0 }
{
    u64::from(deadline.0) * BYTES + u64::from(task.0)
}

// How many frames stand before a key.
fn before(
    tasks: &[u8; Frame::MOST],
    deadlines: &[u32; Frame::MOST],
    frames: usize,
    wanted: u64,
) -> usize
    requires { Numbered tasks.now deadlines.now frames }
    ensures { Parted tasks.now deadlines.now frames wanted result }
{
    let mut low = 0;
    let mut high = frames;
    while low < high {
        let middle = low + (high - low) / 2;
        if key(Ticks(deadlines[middle]), TaskNo(tasks[middle])) < wanted {
            low = middle + 1;
        } else {
            high = middle;
        }
    }
    low
}

// Whether the frame of a number has this key; no frame has a number from `frames` on.
#[tactic(auto, unfolding(crate::specs::Places::has_key, crate::specs::Places::key_at))]
fn has_key(
    tasks: &[u8; Frame::MOST],
    deadlines: &[u32; Frame::MOST],
    frames: usize,
    wanted: u64,
    k: usize,
) -> bool
    requires { frames ≤ most_frames }
    ensures { result ≡ has_key tasks.now deadlines.now frames wanted k }
{
    k < frames && key(Ticks(deadlines[k]), TaskNo(tasks[k])) == wanted
}

// The number of the frame with this task and deadline, or `frames` where none is. A guess that is right spares the search.
fn number_of(
    tasks: &[u8; Frame::MOST],
    deadlines: &[u32; Frame::MOST],
    frames: usize,
    guess: usize,
    task: TaskNo,
    deadline: Ticks,
) -> usize
    requires { Numbered tasks.now deadlines.now frames }
    ensures { result ≡ number_of tasks.now deadlines.now frames task.0 deadline.0 }
{
    let wanted = key(deadline, task);
    if has_key(tasks, deadlines, frames, wanted, guess) {
        return guess;
    }
    let k = before(tasks, deadlines, frames, wanted);
    if has_key(tasks, deadlines, frames, wanted, k) {
        return k;
    }
    frames
}

// The number of the frame that each row names by its task and its deadline. Most rows stand where their frame does.
#[tactic(auto, unfolding(crate::specs::Places::number_at))]
pub fn numbers<'a>(
    tasks: &[u8; Frame::MOST],
    deadlines: &[u32; Frame::MOST],
    frames: usize,
    row_tasks: &'a [u8; Frame::MOST],
    row_deadlines: &'a [u32; Frame::MOST],
    rows: usize,
    found: &mut [usize; Frame::MOST],
)
    requires numbered { Numbered tasks.now deadlines.now frames }
    requires rows_le_most_frames { rows ≤ most_frames }
    requires found_value { found.old ≡ replicate most_frames 0 }
    ensures { found.new ≡ stores (replicate most_frames 0) (number_at tasks.now deadlines.now frames row_tasks.now row_deadlines.now) rows }
{
    for k in 0..rows {
        found[k] = number_of(
            tasks,
            deadlines,
            frames,
            k,
            TaskNo(row_tasks[k]),
            Ticks(row_deadlines[k]),
        );
    }
}

// The first row that names no frame, or one that a row before it names.
pub fn first_unnamed(numbers: &[usize; Frame::MOST], frames: usize, rows: usize) -> Option<usize>
    requires frames_le_most_frames { frames ≤ most_frames }
    requires rows_le_most_frames { rows ≤ most_frames }
    ensures { result ≡ spot_of (first_bad (is_new numbers.now frames) (up_to rows)) }
{
    let mut named = [false; Frame::MOST];
    for k in 0..rows {
        let f = numbers[k];
        if frames <= f || named[f] {
            return Some(k);
        }
        named[f] = true;
    }
    None
}

// The start of each frame, by number.
pub fn starts_by_frame(
    numbers: &[usize; Frame::MOST],
    starts: &[u32; Frame::MOST],
    rows: usize,
    out: &mut [u32; Frame::MOST],
)
    requires rows_le_most_frames { rows ≤ most_frames }
    requires out_value { out.old ≡ replicate most_frames 0 }
    ensures { out.new ≡ spread numbers.now starts.now rows }
{
    for k in 0..rows {
        let f = numbers[k];
        if f < Frame::MOST {
            out[f] = starts[k];
        }
    }
}
