// The control frames: one for each sending node, in node order, from 0 on, a gap between them.
#![tactic(auto)]

ghost use Rattle.std.specs.Prelude.{◌≡◌, ◌≤◌, ◌<◌, ◌^◌};
ghost use Rattle.plan.specs.Memory.{seen};
ghost use Rattle.rules.specs.Limits.{most_nodes};
ghost use Rattle.rules.specs.Traffic.{control_payload};
ghost use Rattle.rules.specs.Frames as rules;
ghost use Rattle.bus.specs.Senders.{by_number};
ghost use Rattle.control.specs.Control.{control_laid};

use bus::BYTES;
use plan::Plan;
use times::{Span, gap_time, sending_time};
use units::{ByteCount, NodeNo};

// As many rows as there are sending nodes, then zeros.
#[derive(Clone, Copy)]
pub struct Control {
    pub count: usize,
    pub nodes: [u8; NodeNo::MOST],
    pub starts: [u32; NodeNo::MOST],
    pub stops: [u32; NodeNo::MOST],
}

// How long the control frame of a payload takes.
fn control_time(p: Plan, payload: ByteCount) -> Span
    ensures { (result.0 ≡ rules.sending_time (seen p).bus payload.0) × (result.0 < 2 ^ 53) }
{
    let bus = p.bus;
    sending_time(bus, payload)
}

// C, the last control stop plus gap.
pub fn control_end(p: Plan, payloads: [u8; BYTES]) -> Span
    requires p_bound { (seen p).nodes ≤ most_nodes }
    requires payloads_value { payloads ≡ by_number (control_payload (seen p)) }
    ensures { result.0 ≡ rules.control_end (seen p) }
{
    let bus = p.bus;
    let gap = gap_time(bus).0;
    let nodes = p.counts[2];
    let mut next: u64 = 0;
    let mut stop: u64 = 0;
    for n in 0..nodes {
        if payloads[n] > 0 {
            stop = next + control_time(p, ByteCount(u32::from(payloads[n]))).0;
            next = stop + gap;
        }
    }
    Span(stop + gap)
}

// Where C fits, so does each stop.
pub fn control_rows(p: Plan, payloads: [u8; BYTES]) -> Control
    requires p_bound { (seen p).nodes ≤ most_nodes }
    requires payloads_value { payloads ≡ by_number (control_payload (seen p)) }
    requires p_bound_2 { rules.control_end (seen p) < 2 ^ 32 }
    ensures { result ≡ control_laid (rules.control_rows (seen p)) }
{
    let bus = p.bus;
    let gap = gap_time(bus).0;
    let most = p.counts[2];
    let mut nodes = [0; NodeNo::MOST];
    let mut starts = [0; NodeNo::MOST];
    let mut stops = [0; NodeNo::MOST];
    let mut count = 0;
    let mut start: u64 = 0;
    for n in 0..most {
        if payloads[n] > 0 {
            let stop = start + control_time(p, ByteCount(u32::from(payloads[n]))).0;
            nodes[count] = n as u8;
            starts[count] = start as u32;
            stops[count] = stop as u32;
            count += 1;
            start = stop + gap;
        }
    }
    Control {
        count,
        nodes,
        starts,
        stops,
    }
}
