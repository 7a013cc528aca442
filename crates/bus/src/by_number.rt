// Tables by number, made of things one by one.
ghost use Rattle.std.specs.Prelude.{◌≡◌, Bool, Option, ℕ, ◌≤◌, ◌<◌, length, get_or};
ghost use Rattle.std.specs.Fn.{FnReturnsAt};
ghost use Rattle.laws.specs.Loops.{stores};
ghost use Rattle.bus.specs.Senders.{every_byte};
ghost use Rattle.bus.specs.Tables.{Gives, Marks, IsMarked};

use crate::BYTES;

// Stores what each thing gives, at the thing's own number.
pub fn fill<T, V, F: Fn(&T) -> V>(table: &mut [V], things: &[T], number_of: F)
where
    V: Copy,
    requires room { length things.now ≤ length table.old }
    requires callable { F.IsAlwaysCallable number_of }
    ensures { (f : ℕ → V) → Gives (λ x v. FnReturnsAt F.Fn number_of x v) f things.now → table.new ≡ stores table.old f (length things.now) }
{
    for (number, thing) in things.iter().enumerate() {
        table[number] = number_of(thing);
    }
}

// Marks the number that each thing gives, if it gives one; what was marked before stays so.
pub fn mark<T, F: Fn(&T) -> Option<u8>>(table: &mut [bool; BYTES], things: &[T], number_of: F)
    requires table_len { length table.old ≡ every_byte }
    requires callable { F.IsAlwaysCallable number_of }
    ensures { (test : T → ℕ → Bool) → Marks (λ x r. FnReturnsAt F.Fn number_of x r) test things.now → IsMarked test table.old things.now table.new }
{
    for thing in things {
        if let Some(number) = number_of(thing) {
            table[usize::from(number)] = true;
        }
    }
}

pub fn at<V: Copy>(table: &[V], number: u8) -> V
    requires { length table.now ≡ every_byte }
    ensures value { (d : V) → result ≡ get_or table.now number d }
    ensures is_byte { number < every_byte }
{
    table[usize::from(number)]
}
