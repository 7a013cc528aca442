// Entries of lent arrays, flags in bytes and bits in words: total, so that no caller has to show anything.
#![tactic(auto)]

ghost use Rattle.std.specs.Prelude.{◌≡◌, ◌<◌, get_or};
ghost use Rattle.places.specs.Bits.{bit_at};
ghost use Rattle.places.specs.Flags.{flag_at, flag_byte, is_set};

// The entry at a place, or what is given where none stands there.
pub fn entry_or<T: Copy>(entries: &[T], place: usize, otherwise: T) -> T
    ensures { result ≡ get_or entries.now place otherwise }
{
    entries.get(place).copied().unwrap_or(otherwise)
}

// A flag in a byte that a caller may have lent: any byte but 0 sets it, so that no byte is without a meaning.
pub fn is_set(byte: u8) -> bool
    ensures { result ≡ is_set byte }
{
    byte != 0
}

pub fn flag_at(a: &[u8], i: usize) -> bool
    ensures { result ≡ flag_at a.now i }
{
    is_set(entry_or(a, i, 0))
}

// A flag as it is stored.
pub fn flag_byte(flag: bool) -> u8
    ensures { result ≡ flag_byte flag }
{
    u8::from(flag)
}

// Places as the bits of a word. A place from 32 on has none.
#[tactic(auto, unfolding(crate::specs::Bits::bit_at))]
pub fn has_bit(bits: u32, place: usize) -> bool
    ensures { result ≡ bit_at bits place }
{
    place < 32 && (bits >> place) % 2 == 1
}
