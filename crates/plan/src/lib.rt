// A plan in memory: flat, by value, arrays of structs with counts.
#![tactic(auto)]

ghost use Rattle.std.specs.Prelude.{◌≡◌};
ghost use Rattle.plan.specs.Memory.{empty_plan};

pub mod bodies;
pub mod look;

use units::{BitCount, ByteBits, ByteCount, ModeNo, ModuleNo, NodeNo, TaskNo, Ticks};

// Rate in kbit/s.
#[derive(Clone, Copy, Default)]
pub struct Bus {
    pub rate: u32,
    pub overhead: ByteCount,
    pub least: ByteCount,
    pub most: ByteCount,
    pub gap: BitCount,
    pub resolution: Ticks,
    pub byte_bits: ByteBits,
}

impl Bus {
    pub const FASTEST: u32 = 100_000;

    pub const MOST_OVERHEAD: u32 = 64;

    pub const MOST_PAYLOAD: u32 = 254;

    pub const WIDEST_GAP: u32 = 1000;

    pub const COARSEST: u32 = 1000;
}

#[derive(Clone, Copy, Default)]
pub struct Module {
    pub node: NodeNo,
}

impl Module {
    pub const MOST: usize = ModuleNo::MOST;
}

#[derive(Clone, Copy, Default)]
pub struct Mode {
    pub home: ModuleNo,
    pub period: Ticks,
    pub switch: Ticks,
}

impl Mode {
    pub const MOST: usize = ModeNo::MOST;
    // Of its period and its switch period.
    pub const LONGEST: u32 = Ticks::LONGEST;
}

#[derive(Clone, Copy, Default)]
pub struct Task {
    pub home: ModuleNo,
    pub size: ByteCount,
    pub worst: Ticks,
}

impl Task {
    pub const MOST: usize = TaskNo::MOST;
    // Of its message, in bytes.
    pub const LARGEST: u32 = 8;
    // Of its worst time.
    pub const LONGEST: u32 = Ticks::LONGEST;
}

#[derive(Clone, Copy, Default)]
pub struct Invocation {
    pub mode: ModeNo,
    pub task: TaskNo,
    pub rate: u32,
}

impl Invocation {
    pub const MOST: usize = 64;

    pub const MOST_OFTEN: u32 = 65_535;
}

#[derive(Clone, Copy, Default, PartialEq, Eq)]
pub struct Connection {
    pub producer: TaskNo,
    pub consumer: TaskNo,
}

impl Connection {
    pub const MOST: usize = 64;
}

// `counts` is by kind: 2 is the number of nodes, 3 to 7 how many things of that kind the file has. A thing without a place left is
// counted and not stored. `consumers` is the edition in which the plan is sent.
#[derive(Clone, Copy)]
pub struct Plan {
    pub bus: Bus,
    pub counts: [usize; 8],
    pub modules: [Module; ModuleNo::MOST],
    pub modes: [Mode; ModeNo::MOST],
    pub tasks: [Task; TaskNo::MOST],
    pub invocations: [Invocation; Invocation::MOST],
    pub connections: [Connection; Connection::MOST],
    pub consumers: bool,
}

impl Plan {
    #[tactic(auto, unfolding(crate::specs::Memory::empty_plan, crate::specs::Memory::lay_out, crate::specs::Memory::bus_laid, crate::specs::Memory::no_plan, crate::specs::Memory::no_bus, crate::specs::Memory::module_laid, crate::specs::Memory::mode_laid, crate::specs::Memory::task_laid, crate::specs::Memory::invocation_laid, crate::specs::Memory::connection_laid))]
    pub fn empty() -> Plan
        ensures { result ≡ empty_plan }
    {
        Plan {
            bus: Bus::default(),
            counts: [0; 8],
            modules: [Module::default(); ModuleNo::MOST],
            modes: [Mode::default(); ModeNo::MOST],
            tasks: [Task::default(); TaskNo::MOST],
            invocations: [Invocation::default(); Invocation::MOST],
            connections: [Connection::default(); Connection::MOST],
            consumers: false,
        }
    }
}
