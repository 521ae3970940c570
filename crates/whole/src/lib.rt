// Whole numbers: the three functions on machine words that the crates above build on.
// The rest of this crate is mathematics: see proofs/Lib.antt for a map.
#![tactic(auto)]

ghost use Rattle.std.specs.Prelude.{◌≡◌, pos, nat_abs};
ghost use Rattle.std.specs.Int.Signed.{quot_z};
ghost use Rattle.whole.specs.Divisor as D;

// How far a number lies from 0: of every i64, the least one too, whose negation no i64 holds.
pub fn magnitude(a: i64) -> u64
    ensures { result ≡ nat_abs a }
{
    a.unsigned_abs()
}

// A number divided by a divisor of it. The sign stays.
pub fn quotient(a: i64, g: u64) -> i64
    requires { D.Exact a g }
    ensures { result ≡ quot_z a (pos g) }
{
    a / (g as i64)
}

// The greatest common divisor, by Euclid's remainder step: the second number falls at each call.
pub fn gcd(a: u64, b: u64) -> u64
    ensures { result ≡ D.gcd a b }
{
    if b == 0 { a } else { gcd(b, a % b) }
}
