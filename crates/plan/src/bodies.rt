// The bodies of a plan's records as things. A byte that a body lacks reads as 0, so that no body is refused here.
ghost use Rattle.std.specs.Prelude.{◌≡◌};
ghost use Rattle.rules.specs.Records.{record_of};
ghost use Rattle.rules.specs.Plan.{bus_of, module_of, mode_of, task_of, invocation_of, connection_of};
ghost use Rattle.plan.specs.Memory.{bus_laid, with_byte_bits, module_laid, mode_laid, task_laid, invocation_laid, connection_laid};

use crate::{Bus, Connection, Invocation, Mode, Module, Task};
use little::{read8, read16, read32};
use units::{BitCount, ByteBits, ByteCount, ModeNo, ModuleNo, NodeNo, TaskNo, Ticks};

// The numbers that both kinds of bus have, with the bits of a byte.
fn bus_with(body: &[u8], bits: ByteBits) -> Bus
    ensures { result ≡ bus_laid (with_byte_bits bits.0 (bus_of (record_of 1 body.now))) }
{
    Bus {
        rate: read32(body, fields::bus::RATE),
        overhead: ByteCount(u32::from(read16(body, fields::bus::OVERHEAD))),
        least: ByteCount(u32::from(read16(body, fields::bus::LEAST))),
        most: ByteCount(u32::from(read16(body, fields::bus::MOST))),
        gap: BitCount(u32::from(read16(body, fields::bus::GAP))),
        resolution: Ticks(read32(body, fields::bus::RESOLUTION)),
        byte_bits: bits,
    }
}

pub fn bus(body: &[u8]) -> Bus
    ensures { result ≡ bus_laid (bus_of (record_of 1 body.now)) }
{
    bus_with(body, ByteBits::plain())
}

pub fn framed_bus(body: &[u8]) -> Bus
    ensures { result ≡ bus_laid (bus_of (record_of 9 body.now)) }
{
    bus_with(body, ByteBits(read8(body, fields::framed_bus::BYTE_BITS)))
}

pub fn module(body: &[u8]) -> Module
    ensures { result ≡ module_laid (module_of (record_of 3 body.now).numbers) }
{
    Module {
        node: NodeNo(read8(body, fields::module::NODE)),
    }
}

pub fn mode(body: &[u8]) -> Mode
    ensures { result ≡ mode_laid (mode_of (record_of 4 body.now).numbers) }
{
    Mode {
        home: ModuleNo(read8(body, fields::mode::HOME)),
        period: Ticks(read32(body, fields::mode::PERIOD)),
        switch: Ticks(read32(body, fields::mode::SWITCH)),
    }
}

pub fn task(body: &[u8]) -> Task
    ensures { result ≡ task_laid (task_of (record_of 5 body.now).numbers) }
{
    Task {
        home: ModuleNo(read8(body, fields::task::HOME)),
        size: ByteCount(u32::from(read8(body, fields::task::SIZE))),
        worst: Ticks(read32(body, fields::task::WORST)),
    }
}

pub fn invocation(body: &[u8]) -> Invocation
    ensures { result ≡ invocation_laid (invocation_of (record_of 6 body.now).numbers) }
{
    Invocation {
        mode: ModeNo(read8(body, fields::invocation::MODE)),
        task: TaskNo(read8(body, fields::invocation::TASK)),
        rate: u32::from(read16(body, fields::invocation::RATE)),
    }
}

pub fn connection(body: &[u8]) -> Connection
    ensures { result ≡ connection_laid (connection_of (record_of 7 body.now).numbers) }
{
    Connection {
        producer: TaskNo(read8(body, fields::connection::PRODUCER)),
        consumer: TaskNo(read8(body, fields::connection::CONSUMER)),
    }
}
