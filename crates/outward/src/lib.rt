// Answers, rows and ticks in the numbers that C has, which has no enums that carry values; and what may be asked of a station.
#![tactic(auto)]

ghost use Rattle.std.specs.Prelude.{◌≡◌};
ghost use Rattle.answers.specs.Answered.{judged};
ghost use Rattle.answers.specs.Refusals.{said};
ghost use Rattle.linetable.specs.Making.{heard_made};
ghost use Rattle.outward.specs.Answers.{answer_of, made_of};
ghost use Rattle.outward.specs.Numbers.{CompletesWith, row_of, tick_said};
ghost use Rattle.outward.specs.Seen.{left_of, module_at, module_by, task_at, task_by, time_by};
ghost use Rattle.station.specs.Parts.{station_by};
ghost use Rattle.stationruns.specs.Runs.{since_release};

use answers::Refusal;
use figures::rest;
use places::{entry_or, flag_at};
use station::{BeforeNodes, tick_before_nodes};
use stationmoves::StartedRow;
use stationrefusals::{Fixed, Play};
use stationruns::{Input, Run, is_awaited, run_at};
use units::{Frame, ModeNo, ModuleNo, TaskNo, Ticks};

// Number 0: not refused; the place is then what was made, or 0. Else the refusal's number and its place.
#[repr(C)]
#[derive(Clone, Copy, Default)]
pub struct Answer {
    pub number: u32,
    pub place: u64,
}

impl From<Refusal> for Answer {
    ghost from_gives = { λ why answer. answer ≡ answer_of (said why) };

    fn from(why: Refusal) -> Answer {
        Answer {
            number: why.number(),
            place: why.place() as u64,
        }
    }
}

impl From<Result<(), Refusal>> for Answer {
    ghost from_gives = { λ verdict answer. answer ≡ answer_of (judged verdict) };

    fn from(verdict: Result<(), Refusal>) -> Answer {
        match verdict {
            Ok(()) => Answer::default(),
            Err(why) => Answer::from(why),
        }
    }
}

// Of a table: its length is the place.
impl From<Result<usize, Refusal>> for Answer {
    ghost from_gives = { λ made answer. answer ≡ made_of (heard_made made) };

    fn from(made: Result<usize, Refusal>) -> Answer {
        match made {
            Ok(length) => Answer {
                number: 0,
                place: length as u64,
            },
            Err(why) => Answer::from(why),
        }
    }
}

// The row that starts: kind 17 or 18, the node or task that sends it, deadline (0 of a control row), start and stop. Kind 0: none starts.
#[repr(C)]
#[derive(Clone, Copy, Default)]
pub struct Row {
    pub kind: u8,
    pub sender: u8,
    pub deadline: u32,
    pub start: u32,
    pub stop: u32,
}

impl From<StartedRow> for Row {
    ghost from_gives = { λ started row. row ≡ row_of started };

    fn from(started: StartedRow) -> Row {
        match started {
            StartedRow::Control(row) => Row {
                kind: 17,
                sender: row.node.0,
                deadline: 0,
                start: row.start.0,
                stop: row.stop.0,
            },
            StartedRow::Data(row) => Row {
                kind: 18,
                sender: row.task.0,
                deadline: row.deadline.0,
                start: row.start.0,
                stop: row.stop.0,
            },
        }
    }
}

// What a tick answers: the refusal or number 0, and the row that starts.
#[repr(C)]
#[derive(Clone, Copy)]
pub struct TickAnswer {
    pub answer: Answer,
    pub row: Row,
}

impl From<Result<Option<StartedRow>, Refusal>> for TickAnswer {
    ghost from_gives = { λ said tick. tick ≡ tick_said said };

    fn from(said: Result<Option<StartedRow>, Refusal>) -> TickAnswer {
        match said {
            Ok(Some(started)) => TickAnswer {
                answer: Answer::default(),
                row: Row::from(started),
            },
            Ok(None) => TickAnswer {
                answer: Answer::default(),
                row: Row::default(),
            },
            Err(why) => TickAnswer {
                answer: Answer::from(why),
                row: Row::default(),
            },
        }
    }
}

// What a tick answers, and its part before the nodes.
#[derive(Clone, Copy)]
pub struct AnswerBeforeNodes {
    pub tick: TickAnswer,
    pub part: BeforeNodes,
}

// A tick but for the nodes, in the numbers that C has. The station may hold any nodes.
pub fn answer_before_nodes<'a>(
    input: Input,
    fixed: Fixed,
    play: Play,
    runs: &'a [u32; ModeNo::MOST * TaskNo::MOST],
    pair_tasks: &'a [u8; Frame::MOST],
    pair_deadlines: &'a [u32; Frame::MOST],
    pair_starts: &'a [u32; Frame::MOST],
    pair_stops: &'a [u32; Frame::MOST],
    pair_modes: &'a [u32; Frame::MOST],
) -> AnswerBeforeNodes
    ensures { CompletesWith (station_by fixed runs.now pair_tasks.now pair_deadlines.now pair_starts.now pair_stops.now pair_modes.now play) input result }
{
    let first = tick_before_nodes(
        input,
        fixed,
        play,
        runs,
        pair_tasks,
        pair_deadlines,
        pair_starts,
        pair_stops,
        pair_modes,
    );
    AnswerBeforeNodes {
        tick: TickAnswer::from(first.said),
        part: first.part,
    }
}

// What may be asked of a station. All is zero where it has not begun, or has no such module or task.
#[repr(C)]
#[derive(Clone, Copy, Default)]
pub struct TimeNow {
    pub begun: u8,
    pub clock: u32,
    pub period: u32,
}

// The time: a station that has begun has a bus period.
#[tactic(auto, unfolding(crate::specs::Seen::time_now, crate::specs::Seen::has_begun, station::specs::Memory::kept_of, station::specs::Memory::state_of))]
pub fn time_now(fixed: Fixed, play: Play) -> TimeNow
    ensures { result ≡ time_by fixed play }
{
    if 0 < fixed.period.0 {
        TimeNow {
            begun: 1,
            clock: play.clock.0,
            period: fixed.period.0,
        }
    } else {
        TimeNow::default()
    }
}

// A module's node, the mode that runs, and the time since that mode began.
#[repr(C)]
#[derive(Clone, Copy, Default)]
pub struct ModuleNow {
    pub there: u8,
    pub node: u8,
    pub mode: u8,
    pub age: u32,
}

fn module_at<'a>(
    sites: &'a [u8; ModuleNo::MOST],
    running: &'a [u8; ModuleNo::MOST],
    ages: &'a [u32; ModuleNo::MOST],
    m: usize,
) -> ModuleNow
    ensures { result ≡ module_at sites.now running.now ages.now m }
{
    ModuleNow {
        there: 1,
        node: entry_or(sites, m, 0),
        mode: entry_or(running, m, 0),
        age: entry_or(ages, m, 0),
    }
}

#[tactic(auto, unfolding(crate::specs::Seen::module_now, crate::specs::Seen::has_begun, station::specs::Memory::kept_of, station::specs::Memory::state_of))]
pub fn module_now(fixed: Fixed, play: Play, m: u8) -> ModuleNow
    ensures { result ≡ module_by fixed play m }
{
    if 0 < fixed.period.0 && m < fixed.modules.count {
        module_at(
            &fixed.modules.sites,
            &play.running,
            &play.ages,
            usize::from(m),
        )
    } else {
        ModuleNow::default()
    }
}

// A task's module, whether a result is awaited, and how many ticks may still pass without it.
#[repr(C)]
#[derive(Clone, Copy, Default)]
pub struct TaskNow {
    pub there: u8,
    pub home: u8,
    pub awaits: u8,
    pub left: u32,
}

fn left(awaited: bool, run: Run, worst: Ticks) -> u32
    ensures { result ≡ left_of awaited worst.0 (since_release run) }
{
    if !awaited {
        return 0;
    }
    let passed = rest(run.age.0.saturating_sub(1), run.period.0);
    worst.0.saturating_sub(passed).saturating_sub(1)
}

fn task_at<'a>(
    t: TaskNo,
    tasks: u8,
    runs: &'a [u32; ModeNo::MOST * TaskNo::MOST],
    running: &'a [u8; ModuleNo::MOST],
    ages: &'a [u32; ModuleNo::MOST],
    homes: &'a [u8; TaskNo::MOST],
    had: &'a [u8; TaskNo::MOST],
    worsts: &'a [u32; TaskNo::MOST],
) -> TaskNow
    ensures { result ≡ task_at tasks runs.now running.now ages.now homes.now had.now worsts.now t.0 }
{
    let run = run_at(runs, running, ages, homes, t);
    let k = t.place();
    let worst = Ticks(entry_or(worsts, k, 0));
    let awaited = is_awaited(true, run, t.0 < tasks, flag_at(had, k), worst);
    TaskNow {
        there: 1,
        home: entry_or(homes, k, 0),
        awaits: u8::from(awaited),
        left: left(awaited, run, worst),
    }
}

pub fn task_now<'a>(
    fixed: Fixed,
    play: Play,
    runs: &'a [u32; ModeNo::MOST * TaskNo::MOST],
    t: u8,
) -> TaskNow
    ensures { result ≡ task_by fixed play runs.now t }
{
    if 0 < fixed.period.0 && t < fixed.tasks.count {
        task_at(
            TaskNo(t),
            fixed.tasks.count,
            runs,
            &play.running,
            &play.ages,
            &fixed.tasks.homes,
            &play.givens,
            &fixed.tasks.worsts,
        )
    } else {
        TaskNow::default()
    }
}
