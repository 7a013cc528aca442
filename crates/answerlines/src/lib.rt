// The answers to a history, each at the front of a lent buffer, and its length. A byte behind the buffer's end is not stored.
#![tactic(auto)]

ghost use Rattle.std.specs.Prelude.{◌||◌, ◌≡◌, ◌+◌, ◌≤◌, length};
ghost use Rattle.std.proofs.lemmas.List.Edits.{sets};
ghost use Rattle.laws.specs.Lists.{all, up_to};
ghost use Rattle.rules.specs.Limits.{most_nodes, most_tasks};
ghost use Rattle.text.specs.Text.{texts};
ghost use Rattle.answerlines.specs.Writing.{begun_text, control_line, data_line, node_shown, only_if, place_shown, quiet_text, refusal_line, row_line, said_text, same_on, same_place, shown_at, shown_line, speaks, ticked_text, times_text};

use answers::Refusal;
use stationmoves::{ControlRow, DataRow, StartedRow};
use stationnodes::Node;
use text::{put_bytes, put_marked, put_numbered};
use units::{NodeNo, TaskNo, Ticks};

// A place, where it is not zero, with at most 63 bytes.
fn put_place(out: &mut [u8], at: usize, n: usize, t: usize, value: u64) -> usize
    requires { at + 63 ≤ 18446744073709551615 }
    ensures out_after { (out.new ≡ sets out.old at (place_shown n t value)) × (result ≡ at + length (place_shown n t value)) }
    ensures few { result ≤ at + 63 }
{
    if value == 0 {
        return at;
    }
    let task_at = put_marked(&mut *out, at, b" ", n as u64);
    let value_at = put_marked(&mut *out, task_at, b"/", t as u64);
    put_marked(&mut *out, value_at, b"=", value)
}

fn put_node(out: &mut [u8], at: usize, n: usize, shown: &[u64; TaskNo::MOST]) -> usize
    requires { at + 2016 ≤ 18446744073709551615 }
    ensures out_after { (out.new ≡ sets out.old at (texts (shown_at n shown.now) most_tasks)) × (result ≡ at + length (texts (shown_at n shown.now) most_tasks)) }
    ensures few { result ≤ at + 2016 }
{
    let mut next = at;
    for (t, value) in shown.iter().enumerate() {
        next = put_place(&mut *out, next, n, t, *value);
    }
    next
}

fn put_nodes(out: &mut [u8], at: usize, nodes: [Node; NodeNo::MOST]) -> usize
    requires { at + 16128 ≤ 18446744073709551615 }
    ensures out_after { (out.new ≡ sets out.old at (texts (node_shown nodes) most_nodes)) × (result ≡ at + length (texts (node_shown nodes) most_nodes)) }
    ensures few { result ≤ at + 16128 }
{
    let mut next = at;
    for (n, node) in nodes.iter().enumerate() {
        next = put_node(&mut *out, next, n, &node.shown);
    }
    next
}

// The line `shown NODE/TASK=VALUE ..` of all places that are not zero, with at most 16,136 bytes.
fn put_shown(out: &mut [u8], at: usize, nodes: [Node; NodeNo::MOST]) -> usize
    requires { at + 16136 ≤ 18446744073709551615 }
    ensures out_after { (out.new ≡ sets out.old at (shown_line nodes)) × (result ≡ at + length (shown_line nodes)) }
    ensures few { result ≤ at + 16136 }
{
    let first = put_bytes(&mut *out, at, b"shown");
    let last = put_nodes(&mut *out, first, nodes);
    if last == first {
        return put_bytes(&mut *out, last, b" -\n");
    }
    put_bytes(&mut *out, last, b"\n")
}

fn put_shown_if(shows: bool, out: &mut [u8], at: usize, nodes: [Node; NodeNo::MOST]) -> usize
    requires { at + 16136 ≤ 18446744073709551615 }
    ensures out_after { (out.new ≡ sets out.old at (only_if shows (shown_line nodes))) × (result ≡ at + length (only_if shows (shown_line nodes))) }
    ensures few { result ≤ at + 16136 }
{
    if shows {
        return put_shown(out, at, nodes);
    }
    at
}

// The line `refused N at P` of a refusal, with at most 53 bytes.
fn put_refusal(out: &mut [u8], at: usize, why: Refusal) -> usize
    requires { at + 53 ≤ 18446744073709551615 }
    ensures out_after { (out.new ≡ sets out.old at (refusal_line why)) × (result ≡ at + length (refusal_line why)) }
    ensures few { result ≤ at + 53 }
{
    let at_at = put_marked(&mut *out, at, b"refused ", why.number() as u64);
    let end = put_marked(&mut *out, at_at, b" at ", why.place() as u64);
    put_bytes(&mut *out, end, b"\n")
}

// When a row starts and stops, and the line's end, with at most 54 bytes.
fn put_times(out: &mut [u8], at: usize, start: Ticks, stop: Ticks) -> usize
    requires { at + 54 ≤ 18446744073709551615 }
    ensures out_after { (out.new ≡ sets out.old at (times_text start stop)) × (result ≡ at + length (times_text start stop)) }
    ensures few { result ≤ at + 54 }
{
    let stop_at = put_marked(&mut *out, at, b" start ", start.0 as u64);
    let end = put_marked(&mut *out, stop_at, b" stop ", stop.0 as u64);
    put_bytes(&mut *out, end, b"\n")
}

// The line of a control row, where rows are asked for.
fn put_control(rows: bool, out: &mut [u8], at: usize, row: ControlRow) -> usize
    requires { at + 118 ≤ 18446744073709551615 }
    ensures out_after { (out.new ≡ sets out.old at (only_if rows (control_line row))) × (result ≡ at + length (only_if rows (control_line row))) }
    ensures few { result ≤ at + 118 }
{
    if rows {
        let node = row.node;
        let times_at = put_marked(&mut *out, at, b"row control node ", node.0 as u64);
        return put_times(&mut *out, times_at, row.start, row.stop);
    }
    at
}

// The line of a data row, where rows are asked for.
fn put_data(rows: bool, out: &mut [u8], at: usize, row: DataRow) -> usize
    requires { at + 118 ≤ 18446744073709551615 }
    ensures out_after { (out.new ≡ sets out.old at (only_if rows (data_line row))) × (result ≡ at + length (only_if rows (data_line row))) }
    ensures few { result ≤ at + 118 }
{
    if rows {
        let task = row.task;
        let deadline = row.deadline;
        let deadline_at = put_marked(&mut *out, at, b"row data task ", task.0 as u64);
        let times_at = put_marked(&mut *out, deadline_at, b" deadline ", deadline.0 as u64);
        return put_times(&mut *out, times_at, row.start, row.stop);
    }
    at
}

// The line of the row that starts, where rows are asked for.
fn put_row(rows: bool, out: &mut [u8], at: usize, row: StartedRow) -> usize
    requires { at + 118 ≤ 18446744073709551615 }
    ensures out_after { (out.new ≡ sets out.old at (only_if rows (row_line row))) × (result ≡ at + length (only_if rows (row_line row))) }
    ensures few { result ≤ at + 118 }
{
    match row {
        StartedRow::Control(control) => put_control(rows, out, at, control),
        StartedRow::Data(data) => put_data(rows, out, at, data),
    }
}

// What is said of a tick: its refusal; else the row that starts, where `rows` are asked for, and what is shown, where `shows` asks for it.
fn put_said(
    out: &mut [u8],
    at: usize,
    rows: bool,
    said: Result<Option<StartedRow>, Refusal>,
    shows: bool,
    nodes: [Node; NodeNo::MOST],
) -> usize
    requires { at + 16254 ≤ 18446744073709551615 }
    ensures out_after { (out.new ≡ sets out.old at (said_text rows said shows nodes)) × (result ≡ at + length (said_text rows said shows nodes)) }
    ensures few { result ≤ at + 16254 }
{
    match said {
        Ok(Some(row)) => {
            let next = put_row(rows, &mut *out, at, row);
            put_shown_if(shows, &mut *out, next, nodes)
        }
        Ok(None) => put_shown_if(shows, &mut *out, at, nodes),
        Err(why) => put_refusal(&mut *out, at, why),
    }
}

// The answer to a tick.
pub fn put_ticked(
    out: &mut [u8],
    rows: bool,
    said: Result<Option<StartedRow>, Refusal>,
    nodes: [Node; NodeNo::MOST],
) -> usize
    ensures out_after { (out.new ≡ sets out.old 0 (ticked_text rows said nodes)) × (result ≡ length (ticked_text rows said nodes)) }
    ensures few { result ≤ 16254 }
{
    put_said(out, 0, rows, said, true, nodes)
}

// Something is said of a quiet tick.
fn speaks(rows: bool, said: Result<Option<StartedRow>, Refusal>, shows: bool) -> bool
    ensures { result ≡ speaks rows said shows }
{
    match said {
        Ok(Some(_)) => rows || shows,
        Ok(None) => shows,
        Err(_) => true,
    }
}

// The answer to the k-th of quiet ticks: `after K` and what is said, or nothing. What is shown is said where it has changed.
pub fn put_quiet(
    out: &mut [u8],
    k: u64,
    rows: bool,
    said: Result<Option<StartedRow>, Refusal>,
    shows: bool,
    nodes: [Node; NodeNo::MOST],
) -> usize
    ensures out_after { (out.new ≡ sets out.old 0 (quiet_text k rows said shows nodes)) × (result ≡ length (quiet_text k rows said shows nodes)) }
    ensures few { result ≤ 16295 }
{
    if speaks(rows, said, shows) {
        let first = put_numbered(&mut *out, b"after ", k);
        return put_said(&mut *out, first, rows, said, shows, nodes);
    }
    0
}

// The answer to a beginning: `begun`, or its refusal.
pub fn put_begun(out: &mut [u8], answer: Result<(), Refusal>) -> usize
    ensures out_after { (out.new ≡ sets out.old 0 (begun_text answer)) × (result ≡ length (begun_text answer)) }
    ensures few { result ≤ 53 }
{
    match answer {
        Ok(()) => put_bytes(out, 0, b"begun\n"),
        Err(why) => put_refusal(out, 0, why),
    }
}

fn same_places(a: &[u64; TaskNo::MOST], b: &[u64; TaskNo::MOST]) -> bool
    ensures { result ≡ all (same_place a.now b.now) (up_to most_tasks) }
{
    a == b
}

// Whether the same is shown, on every node of every task.
pub fn same_shown(a: [Node; NodeNo::MOST], b: [Node; NodeNo::MOST]) -> bool
    ensures { result ≡ all (same_on a b) (up_to most_nodes) }
{
    for n in 0..NodeNo::MOST {
        let first = a[n];
        let second = b[n];
        let same = same_places(&first.shown, &second.shown);
        if !same {
            return false;
        }
    }
    true
}
