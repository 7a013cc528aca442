// The frames of a tick: which row starts or stops now, and which tasks have a pair in it; (b) the mode bytes that land, (f) what is sent.
// Each step is on the array that it changes; what it reads is lent.
#![tactic(auto)]

ghost use Rattle.std.specs.Prelude.{◌≡◌, cond, false, ◌&&◌, leb, get_or, length, replicate, ℕ, ◌*◌, ◌<◌};
ghost use Rattle.laws.specs.Lists.{all, up_to};
ghost use Rattle.laws.specs.Loops.{stores};
ghost use Rattle.rules.specs.Limits.{most_modules, most_nodes, most_tasks};
ghost use Rattle.rules.specs.Station.{row_with};
ghost use Rattle.places.specs.Flags.{flag_byte};
ghost use Rattle.places.specs.Spot.{spot_in};
ghost use Rattle.stationbus.specs.Bus.{byte_from_rule, full_by, full_from, full_rule, full_still, has_other, held_at, held_by, held_rule, is_byte_at, load_from, load_rule, mode_byte_rule, modes_at, number_at, some_pair_at, truth_at};

use places::{entry_or, flag_at, flag_byte, has_bit, is_set};
use units::{Frame, ModuleNo, NodeNo, TaskNo, Ticks};

// Whether so many rows are there and none has this time. The scan does not end early, so that it is one straight pass.
fn lacks<'a>(times: &'a [u32], count: usize, time: Ticks) -> bool
    ensures { result ≡ (leb count (length times.now) && all (has_other times.now time.0) (up_to count)) }
{
    match times.get(..count) {
        Some(rows) => rows
            .iter()
            .fold(true, |other, row| other & (*row != time.0)),
        None => false,
    }
}

fn first_with<'a>(times: &'a [u32], count: usize, time: Ticks) -> Option<usize>
    ensures { spot_in result ≡ row_with (number_at times.now) count time.0 }
{
    for row in 0..count {
        if entry_or(times, row, 0) == time.0 {
            return Some(row);
        }
    }
    None
}

// The lowest of so many rows that has this time; at most ticks none has.
pub fn row_with<'a>(times: &'a [u32], count: usize, time: Ticks) -> Option<usize>
    ensures { spot_in result ≡ row_with (number_at times.now) count time.0 }
{
    if lacks(times, count, time) {
        None
    } else {
        first_with(times, count, time)
    }
}

// Whether a control frame of the node `sender` has a byte for the module.
fn is_byte_of<'a>(
    sends: &'a [u8; ModuleNo::MOST],
    nodes: &'a [u8; ModuleNo::MOST],
    sender: usize,
    m: usize,
) -> bool
    ensures { result ≡ is_byte_at sends.now nodes.now sender m }
{
    flag_at(sends, m) && usize::from(entry_or(nodes, m, 0)) == sender
}

fn held_at<'a>(
    old: u8,
    place: usize,
    sender: usize,
    sends: &'a [u8; ModuleNo::MOST],
    nodes: &'a [u8; ModuleNo::MOST],
    bytes: &'a [u8; ModuleNo::MOST],
) -> u8
    ensures { result ≡ held_by sends.now nodes.now bytes.now sender place old }
{
    let m = place % ModuleNo::MOST;
    if is_byte_of(sends, nodes, sender, m) && usize::from(nodes[m]) != place / ModuleNo::MOST {
        bytes[m]
    } else {
        old
    }
}

fn held_from<'a>(
    mut held: [u8; NodeNo::MOST * ModuleNo::MOST],
    sender: usize,
    sends: &'a [u8; ModuleNo::MOST],
    nodes: &'a [u8; ModuleNo::MOST],
    bytes: &'a [u8; ModuleNo::MOST],
) -> [u8; NodeNo::MOST * ModuleNo::MOST]
    ensures { result ≡ stores held (held_at sends.now nodes.now bytes.now sender held) (most_nodes * most_modules) }
{
    for (place, byte) in held.iter_mut().enumerate() {
        *byte = held_at(*byte, place, sender, sends, nodes, bytes);
    }
    held
}

// (b) A control frame that stops now: `row` is its row, `control_nodes` the rows' nodes.
pub fn held_after<'a>(
    held: [u8; NodeNo::MOST * ModuleNo::MOST],
    row: Option<usize>,
    control_nodes: &'a [u8; NodeNo::MOST],
    sends: &'a [u8; ModuleNo::MOST],
    nodes: &'a [u8; ModuleNo::MOST],
    bytes: &'a [u8; ModuleNo::MOST],
) -> [u8; NodeNo::MOST * ModuleNo::MOST]
    ensures value { result ≡ stores held (held_rule sends.now nodes.now bytes.now control_nodes.now held (spot_in row)) (most_nodes * most_modules) }
    ensures reads { (j : ℕ) → j < most_nodes * most_modules → get_or result j 0 ≡ held_rule sends.now nodes.now bytes.now control_nodes.now held (spot_in row) j }
{
    match row {
        None => held,
        Some(r) => {
            let sender = usize::from(entry_or(control_nodes, r, 0));
            held_from(held, sender, sends, nodes, bytes)
        }
    }
}

fn byte_from<'a>(
    old: u8,
    m: usize,
    sender: usize,
    sends: &'a [u8; ModuleNo::MOST],
    nodes: &'a [u8; ModuleNo::MOST],
    mode: u8,
) -> u8
    ensures { result ≡ cond (is_byte_at sends.now nodes.now sender m) mode old }
{
    if is_byte_of(sends, nodes, sender, m) {
        mode
    } else {
        old
    }
}

fn bytes_from<'a>(
    mut bytes: [u8; ModuleNo::MOST],
    sender: usize,
    sends: &'a [u8; ModuleNo::MOST],
    nodes: &'a [u8; ModuleNo::MOST],
    modes: &'a [u8; ModuleNo::MOST],
) -> [u8; ModuleNo::MOST]
    ensures { result ≡ stores bytes (byte_from_rule sends.now nodes.now (number_at modes.now) sender bytes) most_modules }
{
    for (m, byte) in bytes.iter_mut().enumerate() {
        *byte = byte_from(*byte, m, sender, sends, nodes, modes[m]);
    }
    bytes
}

// (f) A control frame that starts now takes the mode bytes.
pub fn bytes_after<'a>(
    bytes: [u8; ModuleNo::MOST],
    row: Option<usize>,
    control_nodes: &'a [u8; NodeNo::MOST],
    sends: &'a [u8; ModuleNo::MOST],
    nodes: &'a [u8; ModuleNo::MOST],
    modes: &'a [u8; ModuleNo::MOST],
) -> [u8; ModuleNo::MOST]
    ensures { result ≡ stores bytes (mode_byte_rule sends.now nodes.now (number_at modes.now) control_nodes.now bytes (spot_in row)) most_modules }
{
    match row {
        None => bytes,
        Some(r) => {
            let sender = usize::from(entry_or(control_nodes, r, 0));
            bytes_from(bytes, sender, sends, nodes, modes)
        }
    }
}

fn tasks_from<'a>(
    pair_tasks: &'a [u8; Frame::MOST],
    times: &'a [u32; Frame::MOST],
    pairs: usize,
    time: Ticks,
) -> [bool; TaskNo::MOST]
    ensures { result ≡ stores (replicate most_tasks false) (some_pair_at pair_tasks.now times.now pairs time.0) most_tasks }
{
    let mut some = [false; TaskNo::MOST];
    for q in 0..pairs {
        let task = usize::from(entry_or(pair_tasks, q, 0));
        if entry_or(times, q, 0) == time.0 && task < TaskNo::MOST {
            some[task] = true;
        }
    }
    some
}

// By task, whether a pair of it has this time; at most ticks no pair has it.
pub fn tasks_at<'a>(
    pair_tasks: &'a [u8; Frame::MOST],
    times: &'a [u32; Frame::MOST],
    pairs: usize,
    time: Ticks,
) -> [bool; TaskNo::MOST]
    ensures { result ≡ stores (replicate most_tasks false) (some_pair_at pair_tasks.now times.now pairs time.0) most_tasks }
{
    if lacks(times, pairs, time) {
        [false; TaskNo::MOST]
    } else {
        tasks_from(pair_tasks, times, pairs, time)
    }
}

fn modes_from<'a>(
    pair_tasks: &'a [u8; Frame::MOST],
    times: &'a [u32; Frame::MOST],
    pair_modes: &'a [u32; Frame::MOST],
    pairs: usize,
    time: Ticks,
) -> [u32; TaskNo::MOST]
    ensures { result ≡ stores (replicate most_tasks 0) (modes_at pair_tasks.now times.now pair_modes.now pairs time.0) most_tasks }
{
    let mut modes = [0; TaskNo::MOST];
    for q in 0..pairs {
        let task = usize::from(entry_or(pair_tasks, q, 0));
        if entry_or(times, q, 0) == time.0 && task < TaskNo::MOST {
            modes[task] |= entry_or(pair_modes, q, 0);
        }
    }
    modes
}

// By task, the modes that have a message of a pair of it with this time, as bits.
pub fn modes_at<'a>(
    pair_tasks: &'a [u8; Frame::MOST],
    times: &'a [u32; Frame::MOST],
    pair_modes: &'a [u32; Frame::MOST],
    pairs: usize,
    time: Ticks,
) -> [u32; TaskNo::MOST]
    ensures { result ≡ stores (replicate most_tasks 0) (modes_at pair_tasks.now times.now pair_modes.now pairs time.0) most_tasks }
{
    if lacks(times, pairs, time) {
        [0; TaskNo::MOST]
    } else {
        modes_from(pair_tasks, times, pair_modes, pairs, time)
    }
}

fn full_at(full: u8, starts: bool, modes: u32, mode: usize) -> u8
    ensures { result ≡ flag_byte (full_by full starts modes mode) }
{
    flag_byte(if starts {
        has_bit(modes, mode)
    } else {
        is_set(full)
    })
}

fn full_kept(mut full: [u8; TaskNo::MOST]) -> [u8; TaskNo::MOST]
    ensures { result ≡ stores full (full_still full) most_tasks }
{
    for flag in full.iter_mut() {
        *flag = flag_byte(is_set(*flag));
    }
    full
}

fn full_from<'a>(
    mut full: [u8; TaskNo::MOST],
    starting: &'a [bool; TaskNo::MOST],
    sent: &'a [u32; TaskNo::MOST],
    homes: &'a [u8; TaskNo::MOST],
    modes: &'a [u8; ModuleNo::MOST],
) -> [u8; TaskNo::MOST]
    ensures { result ≡ stores full (full_from (truth_at starting.now) (number_at sent.now) homes.now (number_at modes.now) full) most_tasks }
{
    for (t, flag) in full.iter_mut().enumerate() {
        let home = usize::from(homes[t]);
        let mode = usize::from(entry_or(modes, home, 0));
        *flag = full_at(*flag, starting[t], sent[t], mode);
    }
    full
}

// (f) of the data frames: a task of which a pair starts now has a value on the bus if its mode has the message of such a pair. `first` is
// the lowest pair that starts now.
pub fn full_after<'a>(
    full: [u8; TaskNo::MOST],
    first: Option<usize>,
    pairs: usize,
    time: Ticks,
    pair_tasks: &'a [u8; Frame::MOST],
    pair_starts: &'a [u32; Frame::MOST],
    pair_modes: &'a [u32; Frame::MOST],
    homes: &'a [u8; TaskNo::MOST],
    modes: &'a [u8; ModuleNo::MOST],
) -> [u8; TaskNo::MOST]
    ensures { result ≡ stores full (full_rule pair_tasks.now pair_starts.now pair_modes.now pairs time.0 homes.now (number_at modes.now) full (spot_in first)) most_tasks }
{
    match first {
        None => full_kept(full),
        Some(_) => {
            let starting = tasks_at(pair_tasks, pair_starts, pairs, time);
            let sent = modes_at(pair_tasks, pair_starts, pair_modes, pairs, time);
            full_from(full, &starting, &sent, homes, modes)
        }
    }
}

fn loads_from<'a>(
    mut loads: [u64; TaskNo::MOST],
    starting: &'a [bool; TaskNo::MOST],
    out: &'a [u64; TaskNo::MOST],
) -> [u64; TaskNo::MOST]
    ensures { result ≡ stores loads (load_from (truth_at starting.now) (number_at out.now) loads) most_tasks }
{
    for (t, load) in loads.iter_mut().enumerate() {
        if starting[t] {
            *load = out[t];
        }
    }
    loads
}

// (f): and it is the task's out-box.
pub fn loads_after<'a>(
    loads: [u64; TaskNo::MOST],
    first: Option<usize>,
    pairs: usize,
    time: Ticks,
    pair_tasks: &'a [u8; Frame::MOST],
    pair_starts: &'a [u32; Frame::MOST],
    out: &'a [u64; TaskNo::MOST],
) -> [u64; TaskNo::MOST]
    ensures { result ≡ stores loads (load_rule pair_tasks.now pair_starts.now pairs time.0 (number_at out.now) loads (spot_in first)) most_tasks }
{
    match first {
        None => loads,
        Some(_) => {
            let starting = tasks_at(pair_tasks, pair_starts, pairs, time);
            loads_from(loads, &starting, out)
        }
    }
}
