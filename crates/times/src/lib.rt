// Bits and bytes on the bus as time: the only place where bytes become ticks.
#![tactic(auto)]

ghost use Rattle.std.specs.Prelude.{◌≡◌, ◌+◌, ◌≤◌, ◌<◌, ◌^◌};
ghost use Rattle.laws.specs.Numbers.{ceil, up};
ghost use Rattle.plan.specs.Memory.{bus_seen};
ghost use Rattle.rules.specs.Frames.{of_bits, on_bus, sending_time, gap_on_bus, gap_time};
ghost use Rattle.times.specs.Sending.{sending_laid};

use plan::Bus;
use units::ByteCount;

// A number of bits on the bus. Wider than `BitCount`: no value of a bus, however far from its ranges, makes it wrap.
#[derive(Clone, Copy, Default, PartialEq, Eq, PartialOrd, Ord)]
pub struct Bits(pub u64);

// A length of time in ticks; for the same reason wider than `Ticks`.
#[derive(Clone, Copy, Default, PartialEq, Eq, PartialOrd, Ord)]
pub struct Span(pub u64);

// What is sent, as bits and as ticks.
#[derive(Clone, Copy)]
pub struct Sending {
    pub bits: Bits,
    pub ticks: Span,
}

// a / b, rounded up. At no rate nothing takes any time, as the definition has it.
fn quotient_up(a: u64, b: u32) -> u64
    requires { a < 2 ^ 63 }
    ensures { (result ≡ ceil a b) × (result ≤ a) }
{
    if b == 0 {
        return 0;
    }
    let d = u64::from(b);
    (a + (d - 1)) / d
}

// x, rounded up to a multiple of r.
fn multiple_up(r: u32, x: u64) -> u64
    requires { x < 2 ^ 62 }
    ensures { (result ≡ up r x) × (result ≤ x + r) }
{
    quotient_up(x, r) * u64::from(r)
}

// Both roundings go up: to a whole tick, then to the resolution.
fn of_bits(bus: Bus, bits: Bits) -> Sending
    requires { bits.0 < 2 ^ 42 }
    ensures { (result ≡ sending_laid (of_bits (bus_seen bus) bits.0)) × (result.ticks.0 < 2 ^ 53) }
{
    let ticks = quotient_up(bits.0 * 1000, bus.rate);
    Sending {
        bits,
        ticks: Span(multiple_up(bus.resolution.0, ticks)),
    }
}

pub fn on_bus(bus: Bus, payload: ByteCount) -> Sending
    ensures { (result ≡ sending_laid (on_bus (bus_seen bus) payload.0)) × (result.ticks.0 < 2 ^ 53) }
{
    let bytes = u64::from(bus.overhead.0) + u64::from(payload.0.max(bus.least.0));
    of_bits(bus, Bits(u64::from(bus.byte_bits.0) * bytes))
}

pub fn gap_on_bus(bus: Bus) -> Sending
    ensures { (result ≡ sending_laid (gap_on_bus (bus_seen bus))) × (result.ticks.0 < 2 ^ 53) }
{
    of_bits(bus, Bits(u64::from(bus.gap.0)))
}

pub fn sending_time(bus: Bus, payload: ByteCount) -> Span
    ensures { (result.0 ≡ sending_time (bus_seen bus) payload.0) × (result.0 < 2 ^ 53) }
{
    on_bus(bus, payload).ticks
}

pub fn gap_time(bus: Bus) -> Span
    ensures { (result.0 ≡ gap_time (bus_seen bus)) × (result.0 < 2 ^ 53) }
{
    gap_on_bus(bus).ticks
}
