// What a plan sends, in its edition: bus tasks and sending modules; the runs of bus tasks, and of the others that P takes in; the bus period
// and the grid of mode changes; with which periods a task's results are read. Tables by number have a place for every byte, so that no
// look-up of a task's, a module's or a node's number can miss.
#![tactic(auto)]

pub mod by_number;
pub mod edition;
pub mod lists;
pub mod marks;
pub mod period;
pub mod readers;
pub mod runs;
pub mod senders;

// A place for every byte.
pub const BYTES: usize = 256;
