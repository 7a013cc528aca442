// Numbers, total: where a divisor is 0 they give what the definitions do, so that no caller has to show anything.
#![tactic(auto)]

ghost use Rattle.std.specs.Prelude.{◌≡◌, ◌/◌, ◌%◌};
ghost use Rattle.laws.specs.Numbers as laws;

pub fn quotient(a: u32, b: u32) -> u32
    ensures { result ≡ a / b }
{
    a.checked_div(b).unwrap_or(0)
}

pub fn rest(a: u32, b: u32) -> u32
    ensures { result ≡ a % b }
{
    a.checked_rem(b).unwrap_or(a)
}

// a divides b; 0 divides 0 alone.
pub fn divides(a: u32, b: u32) -> bool
    ensures { result ≡ laws.divides a b }
{
    rest(b, a) == 0
}

// Euclid's rule: its loop counts nothing.
pub fn gcd(a: u32, b: u32) -> u32
    ensures { result ≡ laws.gcd a b }
{
    let mut x = a;
    let mut y = b;
    while y != 0 {
        let rest = x % y;
        x = y;
        y = rest;
    }
    x
}

// No product of two of the plan's numbers wraps here.
pub fn lcm(a: u32, b: u32) -> u64
    ensures { result ≡ laws.lcm a b }
{
    if divides(a, b) {
        return u64::from(b);
    }
    let times = a / gcd(a, b);
    u64::from(times) * u64::from(b)
}
