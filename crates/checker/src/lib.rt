// `check`: what a plan file, a table file and the number of lent frame rows come to, and the frame rows of a table that passes, in arrays
// that are lent. Its parts serve the check of `olbiothar` too, which looks for rule 25 in the lent rows.
#![tactic(auto)]

ghost use Rattle.std.specs.Prelude.{◌≡◌, Err, replicate, ◌≤◌};
ghost use Rattle.rules.specs.Limits.{most_nodes, most_frames};
ghost use Rattle.rules.specs.Records.{records, table_follows};
ghost use Rattle.rules.specs.Checker.{check_files};
ghost use Rattle.plan.specs.Memory.{lay_out, seen};
ghost use Rattle.line.specs.Line.{drawing, line_of};
ghost use Rattle.line.proofs.Drawn.{Drawn};
ghost use Rattle.naming.specs.Places.{Numbered};
ghost use Rattle.rows.specs.Frames.{NoRows};
ghost use Rattle.checked.specs.Checking.{Checks, lent_passed, PassesExactly, RefusesExactly};
ghost use Rattle.checker.specs.Passing.{Passes, table_passed};
ghost use Rattle.checker.specs.Unscanned.{ByTable, Judged, checking, refuses, Settles};

use answers::Refusal;
use judging::judge;
use line::{Line, lay_out, of_plan, read_in};
use plan::Plan;
use table::read::{Outcome, is_for_consumers, read_table};
use units::Frame;

// What a check comes to, and how many frames stand in the lent arrays.
#[derive(Clone, Copy)]
pub struct CheckedRows {
    pub answer: Result<(), Refusal>,
    pub frames: usize,
}

fn refused(why: Refusal) -> CheckedRows
    ensures { result ≡ record { answer = Err why; frames = 0 } }
{
    CheckedRows {
        answer: Err(why),
        frames: 0,
    }
}

// A table file by a line and its frames: 20, then 21 to 28; of these 25 only where `early_too`. `starts` is left as `judge` leaves it.
fn by_table<'a>(
    table: &[u8],
    line: Line,
    tasks: &'a [u8; Frame::MOST],
    releases: &'a [u32; Frame::MOST],
    deadlines: &'a [u32; Frame::MOST],
    early_too: bool,
    starts: &mut [u32; Frame::MOST],
) -> CheckedRows
    requires numbered { Numbered tasks.now deadlines.now line.frames }
    requires controls_le_most_nodes { line.controls ≤ most_nodes }
    requires starts_value { starts.old ≡ replicate most_frames 0 }
    ensures { ByTable early_too (drawing line tasks.now releases.now deadlines.now) (records table_follows 20 table.now) result starts.new }
{
    let mut row_tasks: [u8; Frame::MOST] = [0; Frame::MOST];
    let mut row_deadlines: [u32; Frame::MOST] = [0; Frame::MOST];
    let mut row_starts: [u32; Frame::MOST] = [0; Frame::MOST];
    let mut row_stops: [u32; Frame::MOST] = [0; Frame::MOST];
    let reading = read_table(
        table,
        &mut row_tasks,
        &mut row_deadlines,
        &mut row_starts,
        &mut row_stops,
    );
    let outcome = reading.outcome;
    if let Outcome::Broken(at) = outcome {
        return refused(Refusal::BadTableRecords(at));
    }
    let answer = judge(
        reading.heading,
        &row_tasks,
        &row_deadlines,
        &row_starts,
        &row_stops,
        line,
        tasks,
        releases,
        deadlines,
        early_too,
        starts,
    );
    CheckedRows {
        answer,
        frames: line.frames,
    }
}

// A table file by a plan file, where `lent` frame rows are lent: 19 before all, 1 to 11 of the plan, 20 to 28 of the table; of these 25 only
// where `early_too`. The frame rows have the table's starts also where a rule behind 23 refuses it.
pub fn judged(
    plan: &[u8],
    table: &[u8],
    lent: usize,
    early_too: bool,
    tasks: &mut [u8; Frame::MOST],
    releases: &mut [u32; Frame::MOST],
    deadlines: &mut [u32; Frame::MOST],
    starts: &mut [u32; Frame::MOST],
) -> CheckedRows
    requires { NoRows tasks.old releases.old deadlines.old starts.old }
    ensures { Judged early_too lent (checking result tasks.new releases.new deadlines.new starts.new) (lent_passed plan.now table.now lent) }
{
    if lent < Frame::MOST {
        return refused(Refusal::TooFewRows);
    }
    let laid = lay_out(plan, is_for_consumers(table), tasks, releases, deadlines);
    match laid {
        Ok(line) => by_table(table, line, tasks, releases, deadlines, early_too, starts),
        Err(why) => refused(why),
    }
}

// The same with every rule, into arrays with any contents; where it refuses there are no frame rows, and the arrays are zeros.
pub fn check(
    plan: &[u8],
    table: &[u8],
    lent: usize,
    tasks: &mut [u8; Frame::MOST],
    releases: &mut [u32; Frame::MOST],
    deadlines: &mut [u32; Frame::MOST],
    starts: &mut [u32; Frame::MOST],
) -> CheckedRows
    ensures checks { Checks (checking result tasks.new releases.new deadlines.new starts.new) (lent_passed plan.now table.now lent) }
    ensures passes_exactly { PassesExactly result.answer plan.now table.now lent }
    ensures refuses_exactly { RefusesExactly result.answer plan.now table.now lent }
{
    *tasks = [0; Frame::MOST];
    *releases = [0; Frame::MOST];
    *deadlines = [0; Frame::MOST];
    *starts = [0; Frame::MOST];
    let all = judged(plan, table, lent, true, tasks, releases, deadlines, starts);
    let answer = all.answer;
    match answer {
        Err(why) => {
            *tasks = [0; Frame::MOST];
            *releases = [0; Frame::MOST];
            *deadlines = [0; Frame::MOST];
            *starts = [0; Frame::MOST];
            refused(why)
        }
        Ok(()) => all,
    }
}

// An answer, and whether it refuses.
#[derive(Clone, Copy)]
pub struct Ruling {
    pub answer: Result<(), Refusal>,
    pub refused: bool,
}

fn settled_by(answer: Result<(), Refusal>) -> Ruling
    ensures { (result.answer ≡ answer) × (result.refused ≡ refuses answer) }
{
    Ruling {
        answer,
        refused: answer.is_err(),
    }
}

// The answer of a check whose lent rows were scanned for rule 25: where one was early, all rules are looked at once more for the lowest
// record at fault; else the answer without rule 25 stands.
pub fn settled(
    plan: &[u8],
    table: &[u8],
    lent: usize,
    answer: Result<(), Refusal>,
    early: bool,
) -> Ruling
    ensures { Settles early answer (lent_passed plan.now table.now lent) result }
{
    if early {
        let mut tasks: [u8; Frame::MOST] = [0; Frame::MOST];
        let mut releases: [u32; Frame::MOST] = [0; Frame::MOST];
        let mut deadlines: [u32; Frame::MOST] = [0; Frame::MOST];
        let mut starts: [u32; Frame::MOST] = [0; Frame::MOST];
        let all = judged(
            plan,
            table,
            lent,
            true,
            &mut tasks,
            &mut releases,
            &mut deadlines,
            &mut starts,
        );
        let whole = all.answer;
        return settled_by(whole);
    }
    settled_by(answer)
}

// What is handed on of a table that passes: the plan and its line, and in lent arrays each pair's task and deadline and the start that the
// table gives to it, by number. Nothing is handed on where it is refused: the arrays are zeros.
#[derive(Clone, Copy)]
pub struct Passing {
    pub plan: Plan,
    pub line: Line,
}

// Refuses a table by a plan whose frames were laid: they are taken back.
fn taken_back(
    why: Refusal,
    tasks: &mut [u8; Frame::MOST],
    deadlines: &mut [u32; Frame::MOST],
    starts: &mut [u32; Frame::MOST],
) -> Result<Passing, Refusal>
    ensures value { result ≡ Err why }
    ensures tasks_after { (tasks.new ≡ replicate most_frames 0) × (deadlines.new ≡ replicate most_frames 0) × (starts.new ≡ replicate most_frames 0) }
{
    *tasks = [0; Frame::MOST];
    *deadlines = [0; Frame::MOST];
    *starts = [0; Frame::MOST];
    Err(why)
}

// A table file by a plan with its line and its frames: 20 to 28.
fn passed_on(
    p: Plan,
    line: Line,
    table: &[u8],
    tasks: &mut [u8; Frame::MOST],
    releases: &[u32; Frame::MOST],
    deadlines: &mut [u32; Frame::MOST],
    starts: &mut [u32; Frame::MOST],
) -> Result<Passing, Refusal>
    requires p_value { (p ≡ lay_out (seen p)) × (drawing line tasks.old releases.now deadlines.old ≡ line_of (seen p)) × Drawn (seen p) }
    requires starts_value { starts.old ≡ replicate most_frames 0 }
    ensures { Passes result tasks.new deadlines.new starts.new (table_passed (seen p) table.now) }
{
    let judged = by_table(table, line, tasks, releases, deadlines, true, starts);
    match judged.answer {
        Ok(()) => Ok(Passing { plan: p, line }),
        Err(why) => taken_back(why, tasks, deadlines, starts),
    }
}

// A table file by a plan file, every rule but 19, for who goes on with what was read: each file is read once.
pub fn passed(
    plan: &[u8],
    table: &[u8],
    tasks: &mut [u8; Frame::MOST],
    deadlines: &mut [u32; Frame::MOST],
    starts: &mut [u32; Frame::MOST],
) -> Result<Passing, Refusal>
    requires { (tasks.old ≡ replicate most_frames 0) × (deadlines.old ≡ replicate most_frames 0) × (starts.old ≡ replicate most_frames 0) }
    ensures { Passes result tasks.new deadlines.new starts.new (check_files plan.now table.now) }
{
    let p = read_in(plan, is_for_consumers(table))?;
    let mut releases: [u32; Frame::MOST] = [0; Frame::MOST];
    let line = of_plan(p, tasks, &mut releases, deadlines)?;
    passed_on(p, line, table, tasks, &releases, deadlines, starts)
}
