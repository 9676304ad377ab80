// The greatest common divisor of two numbers.
#![tactic(auto)]

ghost use Rattle.std.specs.Prelude.{◌≡◌};
ghost use Rattle.gcd_defs.specs.Gcd.{GreatestDivisor, gcd};

// By remainders: each one is below the one before it, so that the last is 0. That of 0 and 0 is 0. No `for`: the remainders are
// not counted.
pub fn greatest_common_divisor(a: u64, b: u64) -> u64
    ensures answer { result ≡ gcd a b }
    ensures meaning { GreatestDivisor a b result }
{
    let mut x = a;
    let mut y = b;
    while y != 0 {
        let rest = x % y;
        x = y;
        y = rest;
    }
    x
}
