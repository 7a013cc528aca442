// The sorts of number that are never mixed (rule 1.3): a tuple struct for each, with its limit where section 3 of docs/RULES.md sets one.
// Each limit has a function whose contract says the number, so that no other constant is proved.
#![tactic(auto)]

ghost use Rattle.std.specs.Prelude.{◌≡◌};

// Time, in ticks of one microsecond.
#[repr(C)]
#[derive(Clone, Copy, Default, PartialEq, Eq, PartialOrd, Ord)]
pub struct Ticks(pub u32);

impl Ticks {
    // Mode periods, switch periods and worst times go up to this.
    pub const LONGEST: u32 = 1_000_000;

    pub fn longest() -> Ticks
        ensures { result.0 ≡ 1000000 }
    {
        Ticks(Ticks::LONGEST)
    }
}

// A number of bytes: of a payload, an overhead, a file.
#[derive(Clone, Copy, Default, PartialEq, Eq, PartialOrd, Ord)]
pub struct ByteCount(pub u32);

impl ByteCount {
    // No table is longer (rule 3.4).
    pub const LONGEST_TABLE: usize = 14_425;

    pub fn longest_table() -> usize
        ensures { result ≡ 14425 }
    {
        ByteCount::LONGEST_TABLE
    }

    // No sheet is longer, and a longer text is not read as one (rules 17.7 and 18.5).
    pub const LONGEST_SHEET: usize = 262_144;

    pub fn longest_sheet() -> usize
        ensures { result ≡ 262144 }
    {
        ByteCount::LONGEST_SHEET
    }

    pub fn count(self) -> usize
        ensures { result ≡ self.0 }
    {
        self.0 as usize
    }
}

// A number of bits, as a plan gives it: the gap.
#[derive(Clone, Copy, Default, PartialEq, Eq, PartialOrd, Ord)]
pub struct BitCount(pub u32);

// How many bits a byte takes on the bus.
#[derive(Clone, Copy, Default, PartialEq, Eq, PartialOrd, Ord)]
pub struct ByteBits(pub u8);

impl ByteBits {
    pub const FEWEST: u8 = 8;

    pub const MOST: u8 = 12;

    // Where the plan does not say (rule 4.10).
    pub const PLAIN: u8 = 8;

    pub fn fewest() -> ByteBits
        ensures { result.0 ≡ 8 }
    {
        ByteBits(ByteBits::FEWEST)
    }

    pub fn most() -> ByteBits
        ensures { result.0 ≡ 12 }
    {
        ByteBits(ByteBits::MOST)
    }

    pub fn plain() -> ByteBits
        ensures { result.0 ≡ 8 }
    {
        ByteBits(ByteBits::PLAIN)
    }
}

// The number of a node, counted from 0.
#[derive(Clone, Copy, Default, PartialEq, Eq, PartialOrd, Ord)]
pub struct NodeNo(pub u8);

impl NodeNo {
    pub const MOST: usize = 8;

    pub fn most() -> usize
        ensures { result ≡ 8 }
    {
        NodeNo::MOST
    }

    // The node's place in an array of nodes.
    pub fn place(self) -> usize
        ensures { result ≡ self.0 }
    {
        self.0 as usize
    }
}

// The number of a module, counted from 0 in the plan's order.
#[derive(Clone, Copy, Default, PartialEq, Eq, PartialOrd, Ord)]
pub struct ModuleNo(pub u8);

impl ModuleNo {
    pub const MOST: usize = 16;

    pub fn most() -> usize
        ensures { result ≡ 16 }
    {
        ModuleNo::MOST
    }

    // The module's place in an array of modules.
    pub fn place(self) -> usize
        ensures { result ≡ self.0 }
    {
        self.0 as usize
    }
}

// The number of a mode, counted from 0 in the plan's order over all modules.
#[derive(Clone, Copy, Default, PartialEq, Eq, PartialOrd, Ord)]
pub struct ModeNo(pub u8);

impl ModeNo {
    pub const MOST: usize = 32;

    pub fn most() -> usize
        ensures { result ≡ 32 }
    {
        ModeNo::MOST
    }

    // The mode's place in an array of modes.
    pub fn place(self) -> usize
        ensures { result ≡ self.0 }
    {
        self.0 as usize
    }
}

// The number of a task, counted from 0 in the plan's order over all modules.
#[repr(C)]
#[derive(Clone, Copy, Default, PartialEq, Eq, PartialOrd, Ord)]
pub struct TaskNo(pub u8);

impl TaskNo {
    pub const MOST: usize = 32;

    pub fn most() -> usize
        ensures { result ≡ 32 }
    {
        TaskNo::MOST
    }

    // The task's place in an array of tasks.
    pub fn place(self) -> usize
        ensures { result ≡ self.0 }
    {
        self.0 as usize
    }
}

// The number of a record in its file, counted from 0 over all kinds.
#[derive(Clone, Copy, Default, PartialEq, Eq, PartialOrd, Ord)]
pub struct RecordNo(pub usize);

// The number of a frame: by deadline, then by task.
#[derive(Clone, Copy, Default, PartialEq, Eq, PartialOrd, Ord)]
pub struct FrameNo(pub usize);

// A place in a file, in bytes from its front.
#[derive(Clone, Copy, Default, PartialEq, Eq, PartialOrd, Ord)]
pub struct Offset(pub usize);

// The number of a task as it stands in a row: a word, so that a row has no gaps and many rows are cleared at once.
#[repr(C)]
#[derive(Clone, Copy, Default, PartialEq, Eq, PartialOrd, Ord)]
pub struct TaskWord(pub u32);

// A frame as the caller lends it a row: its task, release and deadline, and the start that a table gives it.
#[repr(C)]
#[derive(Clone, Copy, Default, PartialEq, Eq)]
pub struct Frame {
    pub task: TaskWord,
    pub release: Ticks,
    pub deadline: Ticks,
    pub start: Ticks,
}

impl Frame {
    // Refusals 9 and 19: a plan has at most this many frames, and as many rows are lent.
    pub const MOST: usize = 1024;

    pub fn most() -> usize
        ensures { result ≡ 1024 }
    {
        Frame::MOST
    }

    pub fn zero() -> Frame
        ensures { result ≡ record { task = record { 0 = 0 }; release = record { 0 = 0 }; deadline = record { 0 = 0 }; start = record { 0 = 0 } } }
    {
        Frame {
            task: TaskWord(0),
            release: Ticks(0),
            deadline: Ticks(0),
            start: Ticks(0),
        }
    }
}
