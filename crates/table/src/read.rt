// A table gathered from the records of a file as they are met: refusal 20.
ghost use Rattle.std.specs.Prelude.{◌≡◌, replicate, ◌+◌, ◌≤◌, length};
ghost use Rattle.laws.specs.Loops.{placed};
ghost use Rattle.rules.specs.Limits.{most_nodes, most_frames};
ghost use Rattle.rules.specs.Records as rules;
ghost use Rattle.rules.specs.Records.{table_follows};
ghost use Rattle.rules.specs.Checker.{is_for_consumers};
ghost use Rattle.table.specs.Memory.{header_read, control_read, row_read, empty_table, table_from, gathered_from, reading_of, read_with, reported};

use crate::{Header, Heading};
use little::{read8, read16, read32};
use records::{Sort, Step};
use units::{Frame, NodeNo, Offset, Ticks};

// Rule 21.1: the first byte of a table says its edition, whatever follows.
pub fn is_for_consumers(table: &[u8]) -> bool
    ensures { result ≡ is_for_consumers table.now }
{
    read8(table, 0) == fields::header::CONSUMERS_KIND
}

// How gathering ended: at the file's end, or at the place where the record rules are broken.
#[derive(Clone, Copy)]
pub enum Outcome {
    Whole,
    Broken(Offset),
}

#[derive(Clone, Copy)]
pub struct Reading {
    pub outcome: Outcome,
    pub heading: Heading,
}

// In each of these the body is cut out by its kind's length: then it is plain that each of its numbers stands within it.
fn first_record(s: &[u8], body: usize) -> Header
    requires { body + 7 ≤ length s.now }
    ensures { result ≡ header_read s.now body }
{
    let first = records::body(s, body, body + fields::header::LENGTH);
    Header {
        period: Ticks(read32(first, fields::header::PERIOD)),
        controls: usize::from(read8(first, fields::header::CONTROLS)),
        datas: usize::from(read16(first, fields::header::DATAS)),
    }
}

fn control_row(
    s: &[u8],
    body: usize,
    k: usize,
    nodes: &mut [u8; NodeNo::MOST],
    starts: &mut [u32; NodeNo::MOST],
    stops: &mut [u32; NodeNo::MOST],
)
    requires { body + 9 ≤ length s.now }
    ensures nodes_after { nodes.new ≡ placed most_nodes nodes.old k (control_read s.now body).node }
    ensures starts_after { starts.new ≡ placed most_nodes starts.old k (control_read s.now body).start }
    ensures stops_after { stops.new ≡ placed most_nodes stops.old k (control_read s.now body).stop }
{
    if k < NodeNo::MOST {
        let row = records::body(s, body, body + fields::control_row::LENGTH);
        nodes[k] = read8(row, fields::control_row::NODE);
        starts[k] = read32(row, fields::control_row::START);
        stops[k] = read32(row, fields::control_row::STOP);
    }
}

fn data_row(
    s: &[u8],
    body: usize,
    k: usize,
    tasks: &mut [u8; Frame::MOST],
    deadlines: &mut [u32; Frame::MOST],
    starts: &mut [u32; Frame::MOST],
    stops: &mut [u32; Frame::MOST],
)
    requires { body + 13 ≤ length s.now }
    ensures tasks_after { tasks.new ≡ placed most_frames tasks.old k (row_read s.now body).task }
    ensures deadlines_after { deadlines.new ≡ placed most_frames deadlines.old k (row_read s.now body).deadline }
    ensures starts_after { starts.new ≡ placed most_frames starts.old k (row_read s.now body).start }
    ensures stops_after { stops.new ≡ placed most_frames stops.old k (row_read s.now body).stop }
{
    if k < Frame::MOST {
        let row = records::body(s, body, body + fields::data_row::LENGTH);
        tasks[k] = read8(row, fields::data_row::TASK);
        deadlines[k] = read32(row, fields::data_row::DEADLINE);
        starts[k] = read32(row, fields::data_row::START);
        stops[k] = read32(row, fields::data_row::STOP);
    }
}

#[derive(Clone, Copy)]
struct Gathered {
    outcome: Outcome,
    header: Header,
    controls: usize,
    rows: usize,
}

fn gather(
    s: &[u8],
    control_nodes: &mut [u8; NodeNo::MOST],
    control_starts: &mut [u32; NodeNo::MOST],
    control_stops: &mut [u32; NodeNo::MOST],
    tasks: &mut [u8; Frame::MOST],
    deadlines: &mut [u32; Frame::MOST],
    starts: &mut [u32; Frame::MOST],
    stops: &mut [u32; Frame::MOST],
) -> Gathered
    ensures { reported result control_nodes.new control_starts.new control_stops.new tasks.new deadlines.new starts.new stops.new
        ≡ gathered_from (table_from empty_table.header 0 0 control_nodes.old control_starts.old control_stops.old tasks.old deadlines.old starts.old stops.old) (rules.records table_follows 20 s.now) }
{
    let mut head = Header::empty();
    let mut controls = 0;
    let mut rows = 0;
    let mut previous: u8 = 0;
    let mut at: usize = 0;
    loop {
        match records::next(s, Sort::Table, previous, at) {
            Step::Record { kind, body, next } => {
                if kind == fields::data_row::KIND {
                    data_row(s, body, rows, tasks, deadlines, starts, stops);
                    rows += 1;
                    // This is `next`; but no row waits for the length of the row before it to be looked up.
                    at = body + fields::data_row::LENGTH;
                } else if kind == fields::control_row::KIND {
                    control_row(
                        s,
                        body,
                        controls,
                        control_nodes,
                        control_starts,
                        control_stops,
                    );
                    controls += 1;
                    at = next;
                } else {
                    head = first_record(s, body);
                    at = next;
                }
                previous = kind;
            }
            Step::End => {
                return Gathered {
                    outcome: Outcome::Whole,
                    header: head,
                    controls,
                    rows,
                };
            }
            Step::Wrong(place) => {
                return Gathered {
                    outcome: Outcome::Broken(place),
                    header: head,
                    controls,
                    rows,
                };
            }
        }
    }
}

// The numbers of the data rows go to the lent arrays. A broken file leaves nothing there: they are zeros again.
pub fn read_table(
    s: &[u8],
    tasks: &mut [u8; Frame::MOST],
    deadlines: &mut [u32; Frame::MOST],
    starts: &mut [u32; Frame::MOST],
    stops: &mut [u32; Frame::MOST],
) -> Reading
    requires tasks_value { tasks.old ≡ replicate most_frames 0 }
    requires deadlines_value { deadlines.old ≡ replicate most_frames 0 }
    requires starts_value { starts.old ≡ replicate most_frames 0 }
    requires stops_value { stops.old ≡ replicate most_frames 0 }
    ensures { read_with result tasks.new deadlines.new starts.new stops.new
        ≡ reading_of (rules.records table_follows 20 s.now) }
{
    let mut control_nodes = [0; NodeNo::MOST];
    let mut control_starts = [0; NodeNo::MOST];
    let mut control_stops = [0; NodeNo::MOST];
    let g = gather(
        s,
        &mut control_nodes,
        &mut control_starts,
        &mut control_stops,
        tasks,
        deadlines,
        starts,
        stops,
    );
    let outcome = g.outcome;
    let head = g.header;
    match outcome {
        Outcome::Whole => Reading {
            outcome: Outcome::Whole,
            heading: Heading {
                header: head,
                controls: g.controls,
                control_nodes,
                control_starts,
                control_stops,
                rows: g.rows,
            },
        },
        Outcome::Broken(place) => {
            *tasks = [0; Frame::MOST];
            *deadlines = [0; Frame::MOST];
            *starts = [0; Frame::MOST];
            *stops = [0; Frame::MOST];
            Reading {
                outcome: Outcome::Broken(place),
                heading: Heading::empty(),
            }
        }
    }
}
