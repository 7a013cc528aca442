// The table of a line: refusals 12 and 13, the table in a lent buffer, and the starts of its frames in a lent array.
#![tactic(auto)]

ghost use Rattle.std.specs.Prelude.{◌≡◌, length, replicate, ◌≤◌};
ghost use Rattle.std.proofs.lemmas.List.Edits.{sets};
ghost use Rattle.rules.specs.Limits.{most_frames, most_nodes};
ghost use Rattle.rules.specs.Frames.{layout_of};
ghost use Rattle.line.specs.Line.{drawing};
ghost use Rattle.rows.specs.Rows.{table_rows};
ghost use Rattle.linetable.specs.Making.{Makes, tabled};
ghost use Rattle.linetable.specs.Steps.{Stands, laid_table, bytes_of};

use answers::Refusal;
use line::Line;
use placing::Rule;
use table::write::table_length;
use units::{ByteCount, Frame};

// Writes the table of frames that are placed to the front of the buffer. The numbers of the frames and their starts stand by start.
fn write_placed<'a>(
    buf: &mut [u8],
    line: Line,
    tasks: &'a [u8; Frame::MOST],
    deadlines: &'a [u32; Frame::MOST],
    numbers: &'a [u32; Frame::MOST],
    by_start: &'a [u32; Frame::MOST],
)
    requires controls_le_most_nodes { (line.controls ≤ most_nodes) × (line.frames ≤ most_frames) }
    requires tasks_len { (length tasks.now ≡ most_frames) × (length deadlines.now ≡ most_frames) }
    ensures { buf.new ≡ sets buf.old 0 (bytes_of line by_start.now (table_rows tasks.now deadlines.now line.times numbers.now by_start.now line.frames)) }
{
    let mut row_tasks = [0u8; Frame::MOST];
    let mut row_deadlines = [0u32; Frame::MOST];
    let mut row_stops = [0u32; Frame::MOST];
    rows::table_rows(
        tasks,
        deadlines,
        &line.times,
        numbers,
        by_start,
        line.frames,
        &mut row_tasks,
        &mut row_deadlines,
        &mut row_stops,
    );
    table::write::write_table(
        &mut *buf,
        line.head,
        line.period,
        &line.control_nodes,
        &line.control_starts,
        &line.control_stops,
        line.controls,
        &row_tasks,
        &row_deadlines,
        by_start,
        &row_stops,
        line.frames,
    );
}

// Refusals 12 and 13 of a line, and its table; the length of the table at the front of the buffer. The starts by frame number go into `starts`, zeros before, which stay where it refuses.
pub fn placed_table<'a>(
    line: Line,
    tasks: &'a [u8; Frame::MOST],
    releases: &'a [u32; Frame::MOST],
    deadlines: &'a [u32; Frame::MOST],
    starts: &mut [u32; Frame::MOST],
    buf: &mut [u8],
) -> Result<usize, Refusal>
    requires stands { Stands (drawing line tasks.now releases.now deadlines.now) }
    requires starts_value { starts.old ≡ replicate most_frames 0 }
    ensures { (s : Stands (drawing line tasks.now releases.now deadlines.now)) → Makes (tabled result (drawing line tasks.now releases.now deadlines.now) starts.new) buf.old buf.new (laid_table (layout_of s.plan) (length buf.old)) }
{
    let rule = Rule {
        resolution: line.resolution,
        gap: line.gap,
        floor: line.floor,
    };
    let mut numbers = [0u32; Frame::MOST];
    let mut by_start = [0u32; Frame::MOST];
    let outcome = placing::place_all(
        tasks,
        releases,
        deadlines,
        &line.times,
        line.frames,
        rule,
        placing::before(line.period, line.gap),
        &mut numbers,
        &mut by_start,
    );
    if let Err(frame) = outcome {
        return Err(Refusal::NoRoom(frame));
    }
    let needed = table_length(line.controls, line.frames);
    if buf.len() < needed {
        return Err(Refusal::BufferTooShort(ByteCount(needed as u32)));
    }
    write_placed(&mut *buf, line, tasks, deadlines, &numbers, &by_start);
    rows::starts_by_number(&numbers, &by_start, line.frames, starts);
    Ok(needed)
}
