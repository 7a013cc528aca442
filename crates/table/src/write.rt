// The bytes of a table, written into a lent buffer from rows in arrays. Bytes behind the buffer's end are not stored.
ghost use Rattle.std.specs.Prelude.{◌≡◌, ◌+◌, ◌*◌, ◌^◌, ◌≤◌, ◌<◌, ◌∷◌, [], map};
ghost use Rattle.std.proofs.lemmas.List.Edits.{sets};
ghost use Rattle.laws.specs.Lists.{tab, joined};
ghost use Rattle.rules.specs.Limits.{most_frames, most_nodes};
ghost use Rattle.rules.specs.Table.{record_bytes, control_bytes, data_bytes, table_length};
ghost use Rattle.table.specs.Rows.{control_in, data_in, head_in, table_in};

use little::{put8, put16, put32};
use units::{Frame, NodeNo, TaskNo, Ticks};

// The length of a table with so many control rows and data rows.
#[tactic(auto, unfolding(rules::specs::Table::table_length, rules::specs::Table::record_length, rules::specs::Records::body_length, rules::specs::Records::fields, rules::specs::Records::kinds))]
pub fn table_length(controls: usize, rows: usize) -> usize
    requires { (controls ≤ most_nodes) × (rows ≤ most_frames) }
    ensures { (result ≡ table_length controls rows) × (result < 2 ^ 32) }
{
    fields::header::RECORD
        + fields::control_row::RECORD * controls
        + fields::data_row::RECORD * rows
        + fields::end::RECORD
}

fn put_header(buf: &mut [u8], head: u8, period: Ticks, controls: u8, datas: u16)
    ensures { buf.new ≡ sets buf.old 0 (head_in head period.0 controls datas) }
{
    put8(&mut *buf, 0, head);
    put32(&mut *buf, fields::BODY + fields::header::PERIOD, period.0);
    put8(&mut *buf, fields::BODY + fields::header::CONTROLS, controls);
    put16(&mut *buf, fields::BODY + fields::header::DATAS, datas);
}

fn put_control(buf: &mut [u8], at: usize, node: NodeNo, start: Ticks, stop: Ticks)
    requires { at + 10 < 2 ^ 64 }
    ensures { buf.new ≡ sets buf.old at (record_bytes 17 (node.0 ∷ start.0 ∷ stop.0 ∷ [])) }
{
    let body = at + fields::BODY;
    put8(&mut *buf, at, fields::control_row::KIND);
    put8(&mut *buf, body + fields::control_row::NODE, node.0);
    put32(&mut *buf, body + fields::control_row::START, start.0);
    put32(&mut *buf, body + fields::control_row::STOP, stop.0);
}

fn put_data(buf: &mut [u8], at: usize, task: TaskNo, deadline: Ticks, start: Ticks, stop: Ticks)
    requires { at + 14 < 2 ^ 64 }
    ensures { buf.new ≡ sets buf.old at (record_bytes 18 (task.0 ∷ deadline.0 ∷ start.0 ∷ stop.0 ∷ [])) }
{
    let body = at + fields::BODY;
    put8(&mut *buf, at, fields::data_row::KIND);
    put8(&mut *buf, body + fields::data_row::TASK, task.0);
    put32(&mut *buf, body + fields::data_row::DEADLINE, deadline.0);
    put32(&mut *buf, body + fields::data_row::START, start.0);
    put32(&mut *buf, body + fields::data_row::STOP, stop.0);
}

fn put_controls(
    buf: &mut [u8],
    at: usize,
    nodes: &[u8; NodeNo::MOST],
    starts: &[u32; NodeNo::MOST],
    stops: &[u32; NodeNo::MOST],
    controls: usize,
)
    requires { (controls ≤ most_nodes) × (at + 10 * controls < 2 ^ 64) }
    ensures { buf.new ≡ sets buf.old at (joined (map control_bytes (tab (control_in nodes.now starts.now stops.now) 0 controls))) }
{
    for k in 0..controls {
        put_control(
            &mut *buf,
            at + fields::control_row::RECORD * k,
            NodeNo(nodes[k]),
            Ticks(starts[k]),
            Ticks(stops[k]),
        );
    }
}

fn put_rows(
    buf: &mut [u8],
    at: usize,
    tasks: &[u8; Frame::MOST],
    deadlines: &[u32; Frame::MOST],
    starts: &[u32; Frame::MOST],
    stops: &[u32; Frame::MOST],
    rows: usize,
)
    requires { (rows ≤ most_frames) × (at + 14 * rows < 2 ^ 64) }
    ensures { buf.new ≡ sets buf.old at (joined (map data_bytes (tab (data_in tasks.now deadlines.now starts.now stops.now) 0 rows))) }
{
    for k in 0..rows {
        put_data(
            &mut *buf,
            at + fields::data_row::RECORD * k,
            TaskNo(tasks[k]),
            Ticks(deadlines[k]),
            Ticks(starts[k]),
            Ticks(stops[k]),
        );
    }
}

// The whole table at the front of the buffer, with a head of the kind `head`. The data rows stand in the arrays as they are to stand in the table.
pub fn write_table<'a>(
    buf: &mut [u8],
    head: u8,
    period: Ticks,
    control_nodes: &'a [u8; NodeNo::MOST],
    control_starts: &'a [u32; NodeNo::MOST],
    control_stops: &'a [u32; NodeNo::MOST],
    controls: usize,
    row_tasks: &'a [u8; Frame::MOST],
    row_deadlines: &'a [u32; Frame::MOST],
    row_starts: &'a [u32; Frame::MOST],
    row_stops: &'a [u32; Frame::MOST],
    rows: usize,
)
    requires { (controls ≤ most_nodes) × (rows ≤ most_frames) }
    ensures { buf.new ≡ sets buf.old 0 (table_in head period.0 (tab (control_in control_nodes.now control_starts.now control_stops.now) 0 controls) (tab (data_in row_tasks.now row_deadlines.now row_starts.now row_stops.now) 0 rows) controls rows) }
{
    put_header(&mut *buf, head, period, controls as u8, rows as u16);
    put_controls(
        &mut *buf,
        fields::header::RECORD,
        control_nodes,
        control_starts,
        control_stops,
        controls,
    );
    let at = fields::header::RECORD + fields::control_row::RECORD * controls;
    put_rows(
        &mut *buf,
        at,
        row_tasks,
        row_deadlines,
        row_starts,
        row_stops,
        rows,
    );
    put8(
        &mut *buf,
        at + fields::data_row::RECORD * rows,
        fields::end::KIND,
    );
}
