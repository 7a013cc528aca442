// A table, in memory and as bytes; it is read and written by the fields of its records.
#![tactic(auto)]

ghost use Rattle.std.specs.Prelude.{◌≡◌};
ghost use Rattle.table.specs.Memory.{empty_table, heading_of};

pub mod read;
pub mod write;

use units::{NodeNo, Ticks};

// What a table's first record says.
#[derive(Clone, Copy, Default)]
pub struct Header {
    pub period: Ticks,
    pub controls: usize,
    pub datas: usize,
}

impl Header {
    #[tactic(auto, unfolding(crate::specs::Memory::empty_table, crate::specs::Memory::lay_out, crate::specs::Memory::no_table))]
    pub fn empty() -> Header
        ensures { result ≡ empty_table.header }
    {
        Header::default()
    }
}

// What a table file says besides the numbers of its data rows, with an array for each number of a control row. `controls` and `rows`
// count what the file has; a row without a place left is counted and not stored.
#[derive(Clone, Copy)]
pub struct Heading {
    pub header: Header,
    pub controls: usize,
    pub control_nodes: [u8; NodeNo::MOST],
    pub control_starts: [u32; NodeNo::MOST],
    pub control_stops: [u32; NodeNo::MOST],
    pub rows: usize,
}

impl Heading {
    #[tactic(auto, unfolding(crate::specs::Memory::empty_table, crate::specs::Memory::lay_out, crate::specs::Memory::no_table))]
    pub fn empty() -> Heading
        ensures { result ≡ heading_of empty_table }
    {
        Heading {
            header: Header::empty(),
            controls: 0,
            control_nodes: [0; NodeNo::MOST],
            control_starts: [0; NodeNo::MOST],
            control_stops: [0; NodeNo::MOST],
            rows: 0,
        }
    }
}
