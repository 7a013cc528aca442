// Rules 7.24 to 7.28: each looks at the data rows in their order, with what the plan asks of a row's frame or the stop of the row before it.
#![tactic(auto)]

ghost use Rattle.std.specs.Prelude.{◌≡◌, ◌&&◌, eqb, ◌+◌, ◌≤◌};
ghost use Rattle.laws.specs.Lists.{first_bad, up_to};
ghost use Rattle.laws.specs.Numbers as laws;
ghost use Rattle.rules.specs.Limits.{most_frames, most_tasks};
ghost use Rattle.naming.specs.Places.{look_in, before_in};
ghost use Rattle.places.specs.Spot.{spot_of};
ghost use Rattle.datarows.specs.Rows.{time_kept, release_kept, due_kept, gap_kept, last_kept};

use figures::divides;
use places::entry_or;
use times::Span;
use units::{Frame, FrameNo, TaskNo, Ticks};

// Nothing wraps: the sum of two times has 64 bits.
fn later(start: Ticks, time: Ticks) -> Span
    ensures { result.0 ≡ start.0 + time.0 }
{
    Span(u64::from(start.0) + u64::from(time.0))
}

fn wide(time: Ticks) -> Span
    ensures { result.0 ≡ time.0 }
{
    Span(u64::from(time.0))
}

#[tactic(auto, unfolding(naming::specs::Places::look_in))]
fn time_of(times: &[u32; TaskNo::MOST], task: TaskNo) -> Ticks
    ensures { result.0 ≡ look_in most_tasks times.now task.0 }
{
    Ticks(entry_or(times, task.place(), 0))
}

// Every tick is on a resolution of 1, and no division is needed to see it.
fn on_grid(resolution: Ticks, start: Ticks) -> bool
    ensures { result ≡ laws.divides resolution.0 start.0 }
{
    resolution.0 == 1 || divides(resolution.0, start.0)
}

fn time_kept(start: Ticks, stop: Ticks, time: Ticks, resolution: Ticks) -> bool
    ensures { result ≡ (eqb stop.0 (start.0 + time.0) && laws.divides resolution.0 start.0) }
{
    wide(stop) == later(start, time) && on_grid(resolution, start)
}

// Rule 7.24: the first row whose stop is not its start plus its sending time, or whose start is off the resolution.
pub fn first_mistimed<'a>(
    tasks: &'a [u8; Frame::MOST],
    starts: &'a [u32; Frame::MOST],
    stops: &'a [u32; Frame::MOST],
    times: &[u32; TaskNo::MOST],
    resolution: Ticks,
    count: usize,
) -> Option<usize>
    requires { count ≤ most_frames }
    ensures { result ≡ spot_of (first_bad (time_kept tasks.now starts.now stops.now times.now resolution.0) (up_to count)) }
{
    for k in 0..count {
        let time = time_of(times, TaskNo(tasks[k]));
        if !time_kept(Ticks(starts[k]), Ticks(stops[k]), time, resolution) {
            return Some(k);
        }
    }
    None
}

#[tactic(auto, unfolding(naming::specs::Places::look_in))]
pub fn release_of(releases: &[u32; Frame::MOST], frame: FrameNo) -> Ticks
    ensures { result.0 ≡ look_in most_frames releases.now frame.0 }
{
    Ticks(entry_or(releases, frame.0, 0))
}

// Rule 7.25: the first row that starts before the release of its frame.
pub fn first_early(
    starts: &[u32; Frame::MOST],
    releases: &[u32; Frame::MOST],
    numbers: &[usize; Frame::MOST],
    count: usize,
) -> Option<usize>
    requires { count ≤ most_frames }
    ensures { result ≡ spot_of (first_bad (release_kept starts.now releases.now numbers.now) (up_to count)) }
{
    for k in 0..count {
        if Ticks(starts[k]) < release_of(releases, FrameNo(numbers[k])) {
            return Some(k);
        }
    }
    None
}

// Rule 7.26: the first row that stops after its deadline.
pub fn first_late<'a>(
    stops: &'a [u32; Frame::MOST],
    deadlines: &'a [u32; Frame::MOST],
    count: usize,
) -> Option<usize>
    requires { count ≤ most_frames }
    ensures { result ≡ spot_of (first_bad (due_kept stops.now deadlines.now) (up_to count)) }
{
    for k in 0..count {
        if deadlines[k] < stops[k] {
            return Some(k);
        }
    }
    None
}

fn stop_before(stops: &[u32; Frame::MOST], k: usize, last: Ticks) -> Ticks
    requires { k ≤ most_frames }
    ensures { result.0 ≡ before_in stops.now last.0 k }
{
    if k == 0 { last } else { Ticks(stops[k - 1]) }
}

// Rule 7.27: the first row that starts before the stop plus gap of the row before it; `last` is the last control row's stop.
pub fn first_crowded<'a>(
    starts: &'a [u32; Frame::MOST],
    stops: &'a [u32; Frame::MOST],
    last: Ticks,
    gap: Ticks,
    count: usize,
) -> Option<usize>
    requires { count ≤ most_frames }
    ensures { result ≡ spot_of (first_bad (gap_kept starts.now stops.now last.0 gap.0) (up_to count)) }
{
    for k in 0..count {
        let free = later(stop_before(stops, k, last), gap);
        if wide(Ticks(starts[k])) < free {
            return Some(k);
        }
    }
    None
}

// Rule 7.28: the gap lies between the stop of the last row and the next cycle, which begins at P. `last` is as in 7.27.
#[tactic(auto, unfolding(crate::specs::Rows::last_kept))]
pub fn gap_at_end(
    stops: &[u32; Frame::MOST],
    last: Ticks,
    gap: Ticks,
    period: Ticks,
    count: usize,
) -> bool
    requires { count ≤ most_frames }
    ensures { result ≡ last_kept stops.now last.0 gap.0 period.0 count }
{
    later(stop_before(stops, count, last), gap) <= wide(period)
}
