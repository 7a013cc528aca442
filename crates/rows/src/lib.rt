// What the arrays of placed frames give for the frame rows and for the table; and the passes that bring the rows into a lent list.
#![tactic(auto)]

ghost use Rattle.std.specs.Prelude.{◌≡◌, ◌+◌, ◌%◌, ◌≤◌, ◌<◌, length, get_or, replicate};
ghost use Rattle.rules.specs.Limits.{most_frames, most_tasks};
ghost use Rattle.rows.specs.Rows.{scattered, rows_in, table_rows};

use units::{Frame, FrameNo, TaskNo, Ticks};

pub mod passes;

// The number of a frame, as it stands in the array of placed frames.
fn frame(number: u32) -> FrameNo
    ensures { result.0 ≡ number }
{
    FrameNo(number as usize)
}

// Stores the starts by frame number, from the placed frames by start. A number that stands twice would keep its first start.
pub fn starts_by_number<'a>(
    numbers: &'a [u32; Frame::MOST],
    starts: &'a [u32; Frame::MOST],
    count: usize,
    by: &mut [u32; Frame::MOST],
)
    requires count_le_most_frames { count ≤ most_frames }
    requires by_len { length by.old ≡ most_frames }
    ensures { by.new ≡ scattered numbers.now starts.now count by.old }
{
    for j in (0..count).rev() {
        let k = frame(numbers[j]).0;
        if k < Frame::MOST {
            by[k] = starts[j];
        }
    }
}

fn task_of(tasks: &[u8; Frame::MOST], number: FrameNo) -> TaskNo
    requires { length tasks.now ≡ most_frames }
    ensures { result.0 ≡ get_or tasks.now number.0 0 }
{
    TaskNo(tasks.get(number.0).copied().unwrap_or(0))
}

fn deadline_of(deadlines: &[u32; Frame::MOST], number: FrameNo) -> Ticks
    requires { length deadlines.now ≡ most_frames }
    ensures { result.0 ≡ get_or deadlines.now number.0 0 }
{
    Ticks(deadlines.get(number.0).copied().unwrap_or(0))
}

// The stop of a frame of this task that starts here. A start within the cycle and a time within it add up without a carry.
fn stop_of(times: &[u32; TaskNo::MOST], task: TaskNo, start: Ticks) -> Ticks
    requires { length times.now ≡ most_tasks }
    ensures { result.0 ≡ (start.0 + get_or times.now task.0 0) % 4294967296 }
{
    let time = times.get(usize::from(task.0)).copied().unwrap_or(0);
    Ticks(start.0.wrapping_add(time))
}

// Stores what stands in the table's data rows besides the starts, by row; zeros behind them.
#[tactic(auto, unfolding(crate::specs::Rows::task_at, crate::specs::Rows::stop_at, crate::specs::Rows::table_rows))]
pub fn table_rows<'a>(
    tasks: &'a [u8; Frame::MOST],
    deadlines: &'a [u32; Frame::MOST],
    times: &'a [u32; TaskNo::MOST],
    numbers: &'a [u32; Frame::MOST],
    starts: &'a [u32; Frame::MOST],
    count: usize,
    row_tasks: &mut [u8; Frame::MOST],
    row_deadlines: &mut [u32; Frame::MOST],
    row_stops: &mut [u32; Frame::MOST],
)
    requires count_le_most_frames { count ≤ most_frames }
    requires tasks_len { (length tasks.now ≡ most_frames) × (length deadlines.now ≡ most_frames) × (length times.now ≡ most_tasks) }
    requires row_tasks_value { (row_tasks.old ≡ replicate most_frames 0) × (row_deadlines.old ≡ replicate most_frames 0) × (row_stops.old ≡ replicate most_frames 0) }
    ensures { rows_in row_tasks.new row_deadlines.new row_stops.new ≡ table_rows tasks.now deadlines.now times.now numbers.now starts.now count }
{
    for j in 0..count {
        let f = frame(numbers[j]);
        let t = task_of(tasks, f);
        row_tasks[j] = t.0;
        row_deadlines[j] = deadline_of(deadlines, f).0;
        row_stops[j] = stop_of(times, t, Ticks(starts[j])).0;
    }
}
