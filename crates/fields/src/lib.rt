// The fields of each kind of record (rule 2.4): its kind, where in the body each number begins, and how long the body is. A number
// begins where the one before it ends. Whoever reads or writes a body takes these from here; its contract says them by
// `Records.fields`, so that a wrong one is refused there.
#![tactic(auto)]

// How many bytes a number takes.
const U8: usize = 1;

const U16: usize = 2;

const U32: usize = 4;

// A record is the byte of its kind and its body (rule 2.2).
pub const BODY: usize = U8;

pub mod end {
    pub const KIND: u8 = 0;

    pub const LENGTH: usize = 0;

    pub const RECORD: usize = super::BODY + LENGTH;
}

pub mod bus {
    pub const KIND: u8 = 1;

    pub const RATE: usize = 0;

    pub const OVERHEAD: usize = RATE + super::U32;

    pub const LEAST: usize = OVERHEAD + super::U16;

    pub const MOST: usize = LEAST + super::U16;

    pub const GAP: usize = MOST + super::U16;

    pub const RESOLUTION: usize = GAP + super::U16;

    pub const LENGTH: usize = RESOLUTION + super::U32;
}

// A bus that says how many bits a byte takes: the numbers of `bus`, and this one behind them.
pub mod framed_bus {
    pub const KIND: u8 = 9;

    pub const BYTE_BITS: usize = super::bus::LENGTH;

    pub const LENGTH: usize = BYTE_BITS + super::U8;
}

pub mod nodes {
    pub const KIND: u8 = 2;

    pub const COUNT: usize = 0;

    pub const LENGTH: usize = COUNT + super::U8;
}

pub mod module {
    pub const KIND: u8 = 3;

    pub const NODE: usize = 0;

    pub const LENGTH: usize = NODE + super::U8;
}

pub mod mode {
    pub const KIND: u8 = 4;

    pub const HOME: usize = 0;

    pub const PERIOD: usize = HOME + super::U8;

    pub const SWITCH: usize = PERIOD + super::U32;

    pub const LENGTH: usize = SWITCH + super::U32;
}

pub mod task {
    pub const KIND: u8 = 5;

    pub const HOME: usize = 0;

    pub const SIZE: usize = HOME + super::U8;

    pub const WORST: usize = SIZE + super::U8;

    pub const LENGTH: usize = WORST + super::U32;
}

pub mod invocation {
    pub const KIND: u8 = 6;

    pub const MODE: usize = 0;

    pub const TASK: usize = MODE + super::U8;

    pub const RATE: usize = TASK + super::U8;

    pub const LENGTH: usize = RATE + super::U16;
}

pub mod connection {
    pub const KIND: u8 = 7;

    pub const PRODUCER: usize = 0;

    pub const CONSUMER: usize = PRODUCER + super::U8;

    pub const LENGTH: usize = CONSUMER + super::U8;
}

// A table's head; a table of the consumer edition has one of another kind, with the same numbers.
pub mod header {
    pub const KIND: u8 = 16;

    pub const CONSUMERS_KIND: u8 = 20;

    pub const PERIOD: usize = 0;

    pub const CONTROLS: usize = PERIOD + super::U32;

    pub const DATAS: usize = CONTROLS + super::U8;

    pub const LENGTH: usize = DATAS + super::U16;

    pub const RECORD: usize = super::BODY + LENGTH;
}

pub mod control_row {
    pub const KIND: u8 = 17;

    pub const NODE: usize = 0;

    pub const START: usize = NODE + super::U8;

    pub const STOP: usize = START + super::U32;

    pub const LENGTH: usize = STOP + super::U32;

    pub const RECORD: usize = super::BODY + LENGTH;
}

pub mod data_row {
    pub const KIND: u8 = 18;

    pub const TASK: usize = 0;

    pub const DEADLINE: usize = TASK + super::U8;

    pub const START: usize = DEADLINE + super::U32;

    pub const STOP: usize = START + super::U32;

    pub const LENGTH: usize = STOP + super::U32;

    pub const RECORD: usize = super::BODY + LENGTH;
}
