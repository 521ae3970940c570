// Ranges of four numbers, on machine words: "every number lies in −100..100", "entries in −1000..1000", and a state's within ±1,000,000,000. What it says: crates/whole.
#![tactic(auto)]

ghost use Rattle.std.specs.Prelude.{◌≡◌, leb, nat_abs};
ghost use Rattle.whole.specs.Range.{within?};

// Whether a number lies in −b..b. No i64 lies further from 0 than a bound that is none.
#[inline(always)]
fn near(a: i64, b: u64) -> bool
    ensures { result ≡ leb (nat_abs a) b }
{
    match i64::try_from(b) {
        Ok(bound) => (-bound <= a) & (a <= bound),
        Err(_) => true,
    }
}

// Whether four numbers lie in −b..b. Of any four numbers and any bound at all. All four are looked at, so that there is nothing to branch on but the answer.
#[inline(always)]
pub fn within_bound(m: [i64; 4], b: u64) -> bool
    ensures { result ≡ within? b m }
{
    let [p, q, r, s] = m;
    near(p, b) & near(q, b) & near(r, b) & near(s, b)
}

// The same of a bound that is a constant, so that the two comparisons of each number become one; `unsigned_abs` would be worked out before it.
pub fn within<const B: u64>(m: [i64; 4]) -> bool
    ensures { result ≡ within? B m }
{
    within_bound(m, B)
}
