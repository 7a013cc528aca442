// Cells and lines of a sheet, put into a lent buffer from a place on; each function gives the place behind them. A byte behind the buffer's
// end is not stored.
#![tactic(auto)]

ghost use Rattle.std.specs.Prelude.{◌≡◌, ◌+◌, ◌-◌, ◌≤◌, ◌<◌, length};
ghost use Rattle.std.proofs.lemmas.List.Edits.{sets};
ghost use Rattle.text.specs.Text.{ended, pad_right, texts};
ghost use Rattle.sheet.specs.Sheet as sheet;
ghost use Rattle.sheet.specs.Sheet.{cell_text, column_of, cycle_line, edition_text, head_line, row_line, word_at};

use sheet::Cell;
use text::{decimal_length, put_bytes, put_decimal, put_marked, put_spaces};

// The columns behind the kind.
pub const COLUMNS: usize = 10;

// The columns of the kind.
const KIND: usize = 7;

// a minus b, as a cell.
#[tactic(auto, unfolding(sheet::specs::Sheet::difference))]
pub fn difference(a: u32, b: u32) -> Cell
    ensures { result ≡ sheet.difference a b }
{
    if b <= a {
        Cell::Count(u64::from(a - b))
    } else {
        Cell::Below(u64::from(b - a))
    }
}

fn cell_length(cell: Cell) -> usize
    ensures { (result ≡ length (cell_text cell)) × (result ≤ 21) }
{
    match cell {
        Cell::Dash => 1,
        Cell::Count(n) => decimal_length(n),
        Cell::Below(n) => 1 + decimal_length(n),
    }
}

fn put_cell(buf: &mut [u8], at: usize, cell: Cell) -> usize
    requires { at + 21 ≤ 18446744073709551615 }
    ensures { (buf.new ≡ sets buf.old at (cell_text cell)) × (result ≡ at + length (cell_text cell)) }
{
    match cell {
        Cell::Dash => put_bytes(buf, at, b"-"),
        Cell::Count(n) => put_decimal(buf, at, n),
        Cell::Below(n) => put_marked(buf, at, b"-", n),
    }
}

// How wide the columns behind the kind are.
const WIDTHS: [usize; COLUMNS] = [4, 4, 7, 8, 10, 10, 4, 7, 12, 11];

// Two spaces, and the cell at the right end of its column.
fn put_column(buf: &mut [u8], at: usize, width: usize, cell: Cell) -> usize
    requires { (at + 35 ≤ 18446744073709551615) × (width ≤ 12) }
    ensures buf_after { (buf.new ≡ sets buf.old at (sheet.column width (cell_text cell))) × (result ≡ at + length (sheet.column width (cell_text cell))) }
    ensures few { result ≤ at + 23 }
{
    let spaces = 2 + width.saturating_sub(cell_length(cell));
    let cell_at = put_spaces(&mut *buf, at, spaces);
    put_cell(buf, cell_at, cell)
}

fn put_columns(buf: &mut [u8], at: usize, cells: [Cell; COLUMNS]) -> usize
    requires { at + 242 ≤ 18446744073709551615 }
    ensures buf_after { (buf.new ≡ sets buf.old at (texts (column_of (word_at cells)) 10)) × (result ≡ at + length (texts (column_of (word_at cells)) 10)) }
    ensures few { result ≤ at + 230 }
{
    let mut next = at;
    for (k, width) in WIDTHS.iter().enumerate() {
        next = put_column(&mut *buf, next, *width, cells[k]);
    }
    next
}

fn put_kind(buf: &mut [u8], at: usize, kind: &[u8]) -> usize
    requires kind_len_bound { length kind.now ≤ 7 }
    requires at_bound { at + 7 ≤ 18446744073709551615 }
    ensures buf_after { (buf.new ≡ sets buf.old at (pad_right 7 kind.now)) × (result ≡ at + length (pad_right 7 kind.now)) }
    ensures few { result ≤ at + 7 }
{
    let end = put_bytes(&mut *buf, at, kind);
    put_spaces(buf, end, KIND.saturating_sub(kind.len()))
}

// A row's line, with its record's number as a comment.
pub fn put_row(buf: &mut [u8], at: usize, kind: &[u8], cells: [Cell; COLUMNS], number: u64) -> usize
    requires kind_len_bound { length kind.now ≤ 7 }
    requires number_bound { (number < 10000) × (at + 300 ≤ 18446744073709551615) }
    ensures buf_after { (buf.new ≡ sets buf.old at (ended (row_line kind.now cells number))) × (result ≡ at + length (ended (row_line kind.now cells number))) }
    ensures few { result ≤ at + 246 }
{
    let cells_at = put_kind(&mut *buf, at, kind);
    let comment_at = put_columns(&mut *buf, cells_at, cells);
    let end = put_marked(&mut *buf, comment_at, b"  # ", number);
    put_bytes(buf, end, b"\n")
}

// The word of the consumer edition; nothing in the other.
fn put_edition(buf: &mut [u8], at: usize, consumers: bool) -> usize
    requires { at + 10 ≤ 18446744073709551615 }
    ensures buf_after { (buf.new ≡ sets buf.old at (edition_text consumers)) × (result ≡ at + length (edition_text consumers)) }
    ensures few { result ≤ at + 10 }
{
    if consumers {
        put_bytes(buf, at, b" consumers")
    } else {
        at
    }
}

// The first line: the cycle, and the edition.
pub fn put_cycle(buf: &mut [u8], at: usize, consumers: bool, period: u32) -> usize
    requires { at + 70 ≤ 18446744073709551615 }
    ensures buf_after { (buf.new ≡ sets buf.old at (ended (cycle_line consumers period))) × (result ≡ at + length (ended (cycle_line consumers period))) }
    ensures few { result ≤ at + 70 }
{
    let edition_at = put_marked(&mut *buf, at, b"cycle ", u64::from(period));
    let comment_at = put_edition(&mut *buf, edition_at, consumers);
    put_bytes(buf, comment_at, b"  # ticks of one microsecond\n")
}

// The head: the names of the columns.
pub fn put_head(buf: &mut [u8], at: usize) -> usize
    requires { at + 120 ≤ 18446744073709551615 }
    ensures buf_after { (buf.new ≡ sets buf.old at (ended head_line)) × (result ≡ at + length (ended head_line)) }
    ensures few { result ≤ at + 120 }
{
    put_bytes(
        buf,
        at,
        b"# kind   node  task  release  deadline       start        stop  bits    ticks  from-release  to-deadline  # record\n",
    )
}
