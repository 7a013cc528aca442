// The sheet of a plan file and a table file, at the front of lent bytes (docs/RULES.md, section 17).
#![tactic(auto)]

ghost use Rattle.std.specs.Prelude.{◌≡◌, ◌+◌, ◌*◌, ◌≤◌, length};
ghost use Rattle.std.proofs.lemmas.List.Edits.{sets};
ghost use Rattle.rules.specs.Limits.{longest_sheet, most_nodes, most_frames};
ghost use Rattle.rules.specs.Traffic.{control_payload};
ghost use Rattle.rules.specs.Checker.{is_for_consumers};
ghost use Rattle.answers.specs.Answered.{judged};
ghost use Rattle.answers.specs.Refusals.{number_of, place_of, said};
ghost use Rattle.plan.specs.Memory.{lay_out, seen};
ghost use Rattle.bus.specs.Senders.{by_number};
ghost use Rattle.line.specs.Line.{drawing, line_of};
ghost use Rattle.table.specs.Memory.{table_with};
ghost use Rattle.checked.specs.Checking.{verdict};
ghost use Rattle.checker.specs.Passing.{table_passed};
ghost use Rattle.text.specs.Text.{refused_line, texts};
ghost use Rattle.sheet.specs.Sheet as sheet;
ghost use Rattle.sheetwriter.specs.Memory.{control_text_in, data_cells_in, data_text_in, printed_text, sheet_in};
ghost use Rattle.sheetwriter.specs.Writing.{FromFile, Prints, Writes, table_located};

use answers::Refusal;
use bus::BYTES;
use bus::senders::Senders;
use datarows::release_of;
use judging::judge;
use line::{Line, of_plan, read_in};
use naming::numbers;
use plan::Plan;
use plan::look::{module_at, task_at};
use sheet::Cell;
use sheetlines::{COLUMNS, difference, put_cycle, put_head, put_row};
use table::Heading;
use table::read::{Outcome, is_for_consumers, read_table};
use text::put_refused;
use times::on_bus;
use units::{ByteCount, Frame, FrameNo, NodeNo, TaskNo, Ticks};

// What check says of plan and table, and how long the text is.
#[derive(Clone, Copy)]
pub struct Written {
    pub answer: Result<(), Refusal>,
    pub length: usize,
}

fn control_cells(
    p: Plan,
    payloads: &[u8; BYTES],
    node: NodeNo,
    start: Ticks,
    stop: Ticks,
) -> [Cell; COLUMNS]
    requires { payloads.now ≡ by_number (control_payload (seen p)) }
    ensures { result ≡ sheet.control_cells (seen p) (record { node = node.0; start = start.0; stop = stop.0 }) }
{
    let bus = p.bus;
    let sent = on_bus(bus, ByteCount(u32::from(payloads[usize::from(node.0)])));
    [
        Cell::Count(u64::from(node.0)),
        Cell::Dash,
        Cell::Dash,
        Cell::Dash,
        Cell::Count(u64::from(start.0)),
        Cell::Count(u64::from(stop.0)),
        Cell::Count(sent.bits.0),
        Cell::Count(sent.ticks.0),
        Cell::Dash,
        Cell::Dash,
    ]
}

fn data_cells(
    p: Plan,
    task: TaskNo,
    release: Ticks,
    deadline: Ticks,
    start: Ticks,
    stop: Ticks,
) -> [Cell; COLUMNS]
    ensures { result ≡ data_cells_in (seen p) task.0 release.0 deadline.0 start.0 stop.0 }
{
    let sender = task_at(p, task.place());
    let home = module_at(p, sender.home.place());
    let bus = p.bus;
    let sent = on_bus(bus, sender.size);
    [
        Cell::Count(u64::from(home.node.0)),
        Cell::Count(u64::from(task.0)),
        Cell::Count(u64::from(release.0)),
        Cell::Count(u64::from(deadline.0)),
        Cell::Count(u64::from(start.0)),
        Cell::Count(u64::from(stop.0)),
        Cell::Count(sent.bits.0),
        Cell::Count(sent.ticks.0),
        difference(start.0, release.0),
        difference(deadline.0, stop.0),
    ]
}

fn put_controls<'a>(
    buf: &mut [u8],
    at: usize,
    p: Plan,
    payloads: &[u8; BYTES],
    nodes: &'a [u8; NodeNo::MOST],
    starts: &'a [u32; NodeNo::MOST],
    stops: &'a [u32; NodeNo::MOST],
    controls: usize,
) -> usize
    requires payloads_value { payloads.now ≡ by_number (control_payload (seen p)) }
    requires controls_le_most_nodes { (controls ≤ most_nodes) × (at + 3200 ≤ 18446744073709551615) }
    ensures buf_after { (buf.new ≡ sets buf.old at (texts (control_text_in (seen p) nodes.now starts.now stops.now) controls)) × (result ≡ at + length (texts (control_text_in (seen p) nodes.now starts.now stops.now) controls)) }
    ensures few { result ≤ at + 1968 }
{
    let mut next = at;
    for k in 0..controls {
        let cells = control_cells(
            p,
            payloads,
            NodeNo(nodes[k]),
            Ticks(starts[k]),
            Ticks(stops[k]),
        );
        next = put_row(&mut *buf, next, b"control", cells, 1 + k as u64);
    }
    next
}

// `first` is the record of the first data row, `frames` the number of each row's pair.
fn put_datas<'a>(
    buf: &mut [u8],
    at: usize,
    p: Plan,
    first: usize,
    tasks: &'a [u8; Frame::MOST],
    deadlines: &'a [u32; Frame::MOST],
    starts: &'a [u32; Frame::MOST],
    stops: &'a [u32; Frame::MOST],
    releases: &'a [u32; Frame::MOST],
    frames: &'a [usize; Frame::MOST],
    rows: usize,
) -> usize
    requires { (rows ≤ most_frames) × (first ≤ 1 + most_nodes) × (at + 409600 ≤ 18446744073709551615) }
    ensures buf_after { (buf.new ≡ sets buf.old at (texts (data_text_in (seen p) first tasks.now deadlines.now starts.now stops.now releases.now frames.now) rows)) × (result ≡ at + length (texts (data_text_in (seen p) first tasks.now deadlines.now starts.now stops.now releases.now frames.now) rows)) }
    ensures few { result ≤ at + 251904 }
{
    let mut next = at;
    for k in 0..rows {
        let release = release_of(releases, FrameNo(frames[k]));
        let cells = data_cells(
            p,
            TaskNo(tasks[k]),
            release,
            Ticks(deadlines[k]),
            Ticks(starts[k]),
            Ticks(stops[k]),
        );
        next = put_row(&mut *buf, next, b"data", cells, (first + k) as u64);
    }
    next
}

// The sheet from a place on. A table that is printed has no more rows than have a place in the arrays.
fn put_sheet<'a>(
    buf: &mut [u8],
    at: usize,
    p: Plan,
    heading: Heading,
    tasks: &'a [u8; Frame::MOST],
    deadlines: &'a [u32; Frame::MOST],
    starts: &'a [u32; Frame::MOST],
    stops: &'a [u32; Frame::MOST],
    releases: &'a [u32; Frame::MOST],
    frames: &'a [usize; Frame::MOST],
) -> usize
    requires { at ≤ 53 }
    ensures buf_after { (buf.new ≡ sets buf.old at (sheet_in (seen p) (table_with heading tasks.now deadlines.now starts.now stops.now) releases.now frames.now)) × (result ≡ at + length (sheet_in (seen p) (table_with heading tasks.now deadlines.now starts.now stops.now) releases.now frames.now)) }
    ensures few { result ≤ at + 254062 }
{
    let senders = Senders::of(p);
    let payloads = senders.payloads;
    let controls = heading.controls.min(NodeNo::MOST);
    let rows = heading.rows.min(Frame::MOST);
    let head = heading.header;
    let head_at = put_cycle(&mut *buf, at, p.consumers, head.period.0);
    let controls_at = put_head(&mut *buf, head_at);
    let rows_at = put_controls(
        &mut *buf,
        controls_at,
        p,
        &payloads,
        &heading.control_nodes,
        &heading.control_starts,
        &heading.control_stops,
        controls,
    );
    put_datas(
        buf,
        rows_at,
        p,
        1 + controls,
        tasks,
        deadlines,
        starts,
        stops,
        releases,
        frames,
        rows,
    )
}

// The line of a refusal, alone.
fn refused(why: Refusal, out: &mut [u8]) -> Written
    ensures prints { Prints result out.old out.new (said why) (refused_line (number_of why) (place_of why)) }
    ensures few { result.length ≤ 53 }
{
    let length = put_refused(out, why.number(), why.place());
    Written {
        answer: Err(why),
        length,
    }
}

// What is printed of a table that was judged: a refusal before 25 alone, else the sheet, below the refusal if there is one.
fn printed<'a>(
    out: &mut [u8],
    answer: Result<(), Refusal>,
    p: Plan,
    heading: Heading,
    tasks: &'a [u8; Frame::MOST],
    deadlines: &'a [u32; Frame::MOST],
    starts: &'a [u32; Frame::MOST],
    stops: &'a [u32; Frame::MOST],
    releases: &'a [u32; Frame::MOST],
    frames: &'a [usize; Frame::MOST],
) -> Written
    ensures prints { Prints result out.old out.new (judged answer) (printed_text (judged answer) (sheet_in (seen p) (table_with heading tasks.now deadlines.now starts.now stops.now) releases.now frames.now)) }
    ensures few { result.length ≤ longest_sheet }
{
    match answer {
        Ok(()) => {
            let length = put_sheet(
                out, 0, p, heading, tasks, deadlines, starts, stops, releases, frames,
            );
            Written {
                answer: Ok(()),
                length,
            }
        }
        Err(why) => {
            let top = put_refused(&mut *out, why.number(), why.place());
            if why.number() < 25 {
                return Written {
                    answer: Err(why),
                    length: top,
                };
            }
            let length = put_sheet(
                out, top, p, heading, tasks, deadlines, starts, stops, releases, frames,
            );
            Written {
                answer: Err(why),
                length,
            }
        }
    }
}

// A table file by a plan with its line and its pairs.
fn by_plan<'a>(
    p: Plan,
    line: Line,
    table: &[u8],
    tasks: &'a [u8; Frame::MOST],
    releases: &'a [u32; Frame::MOST],
    deadlines: &'a [u32; Frame::MOST],
    out: &mut [u8],
) -> Written
    requires { (p ≡ lay_out (seen p)) × (drawing line tasks.now releases.now deadlines.now ≡ line_of (seen p)) × FromFile (is_for_consumers table.now) (seen p) }
    ensures prints { Prints result out.old out.new (verdict (table_passed (seen p) table.now)) (sheet.text_for (table_located (seen p) table.now)) }
    ensures few { result.length ≤ longest_sheet }
{
    let mut row_tasks: [u8; Frame::MOST] = [0; Frame::MOST];
    let mut row_deadlines: [u32; Frame::MOST] = [0; Frame::MOST];
    let mut row_starts: [u32; Frame::MOST] = [0; Frame::MOST];
    let mut row_stops: [u32; Frame::MOST] = [0; Frame::MOST];
    let reading = read_table(
        table,
        &mut row_tasks,
        &mut row_deadlines,
        &mut row_starts,
        &mut row_stops,
    );
    let outcome = reading.outcome;
    if let Outcome::Broken(at) = outcome {
        return refused(Refusal::BadTableRecords(at), out);
    }
    let heading = reading.heading;
    let mut starts: [u32; Frame::MOST] = [0; Frame::MOST];
    let answer = judge(
        heading,
        &row_tasks,
        &row_deadlines,
        &row_starts,
        &row_stops,
        line,
        tasks,
        releases,
        deadlines,
        true,
        &mut starts,
    );
    let mut frames: [usize; Frame::MOST] = [0; Frame::MOST];
    numbers(
        tasks,
        deadlines,
        line.frames,
        &row_tasks,
        &row_deadlines,
        heading.rows.min(Frame::MOST),
        &mut frames,
    );
    printed(
        out,
        answer,
        p,
        heading,
        &row_tasks,
        &row_deadlines,
        &row_starts,
        &row_stops,
        releases,
        &frames,
    )
}

// The sheet of two files of any bytes: each is read once, the plan in the table's edition. What stands behind the text is as it was.
pub fn write(plan: &[u8], table: &[u8], out: &mut [u8]) -> Written
    ensures writes { Writes result out.old out.new plan.now table.now }
    ensures few { result.length ≤ longest_sheet }
{
    let p = match read_in(plan, is_for_consumers(table)) {
        Ok(p) => p,
        Err(why) => return refused(why, out),
    };
    let mut tasks: [u8; Frame::MOST] = [0; Frame::MOST];
    let mut releases: [u32; Frame::MOST] = [0; Frame::MOST];
    let mut deadlines: [u32; Frame::MOST] = [0; Frame::MOST];
    let line = match of_plan(p, &mut tasks, &mut releases, &mut deadlines) {
        Ok(line) => line,
        Err(why) => return refused(why, out),
    };
    by_plan(p, line, table, &tasks, &releases, &deadlines, out)
}
