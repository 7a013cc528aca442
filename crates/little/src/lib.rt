// Little-endian numbers (rule 2.3), read from a lent file and stored into a lent buffer. Every place is allowed: a byte behind the end reads
// as 0, and is not stored.
#![tactic(auto)]

ghost use Rattle.std.specs.Prelude.{◌≡◌, ◌+◌, ◌≤◌, leb, length, get_or, take, drop, set};
ghost use Rattle.std.proofs.lemmas.List.Edits.{sets};
ghost use Rattle.laws.specs.Numbers.{number, bytes};

// The byte `k` places behind `at`.
fn byte(s: &[u8], at: usize, k: usize) -> u8
    ensures { result ≡ get_or s.now (at + k) 0 }
{
    match at.checked_add(k) {
        Some(place) => s.get(place).copied().unwrap_or(0),
        None => 0,
    }
}

// Whether n bytes stand at a place: those are read, and stored, without a test for each.
fn holds(s: &[u8], at: usize, n: usize) -> bool
    ensures { result ≡ leb (at + n) (length s.now) }
{
    n <= s.len() && at <= s.len() - n
}

pub fn read8(s: &[u8], at: usize) -> u8
    ensures { result ≡ number (take 1 (drop at s.now)) }
{
    byte(s, at, 0)
}

pub fn read16(s: &[u8], at: usize) -> u16
    ensures { result ≡ number (take 2 (drop at s.now)) }
{
    u16::from_le_bytes([byte(s, at, 0), byte(s, at, 1)])
}

pub fn read32(s: &[u8], at: usize) -> u32
    ensures { result ≡ number (take 4 (drop at s.now)) }
{
    if holds(s, at, 4) {
        return u32::from_le_bytes([s[at], s[at + 1], s[at + 2], s[at + 3]]);
    }
    u32::from_le_bytes([
        byte(s, at, 0),
        byte(s, at, 1),
        byte(s, at, 2),
        byte(s, at, 3),
    ])
}

// Stores a byte `k` places behind `at`.
fn store(buf: &mut [u8], at: usize, k: usize, x: u8)
    ensures { buf.new ≡ set buf.old (at + k) x }
{
    if at < buf.len() && k < buf.len() - at {
        buf[at + k] = x;
    }
}

fn put(buf: &mut [u8], at: usize, bytes: &[u8])
    ensures { buf.new ≡ sets buf.old at bytes.now }
{
    if holds(buf, at, bytes.len()) {
        buf[at..at + bytes.len()].copy_from_slice(bytes);
    } else {
        for (k, byte) in bytes.iter().enumerate() {
            store(buf, at, k, *byte);
        }
    }
}

pub fn put8(buf: &mut [u8], at: usize, x: u8)
    ensures { buf.new ≡ sets buf.old at (bytes 1 x) }
{
    put(buf, at, &[x]);
}

pub fn put16(buf: &mut [u8], at: usize, x: u16)
    ensures { buf.new ≡ sets buf.old at (bytes 2 x) }
{
    put(buf, at, &u16::to_le_bytes(x));
}

pub fn put32(buf: &mut [u8], at: usize, x: u32)
    ensures { buf.new ≡ sets buf.old at (bytes 4 x) }
{
    put(buf, at, &u32::to_le_bytes(x));
}
