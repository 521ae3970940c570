// Cancelling, on machine words: "To cancel a matrix, divide it by the greatest common divisor of the four entries. Signs stay." What it says: crates/plane.
#![tactic(auto)]

ghost use Rattle.std.specs.Prelude.{true, ◌↔◌, ◌≡◌, ◌<◌, nat_abs};
ghost use Rattle.std.specs.Int.{◌∣◌};
ghost use Rattle.whole.specs.Range.{Within};
ghost use Rattle.whole.specs.Divisor.{gcd, gcd4, divided, Divides4};
ghost use Rattle.plane.specs.Plane.{cancel_of};

// The greatest common divisor of two numbers, signs apart, by Euclid.
pub fn divisor_of_two(x: i64, y: i64) -> u64
    ensures { result ≡ gcd (nat_abs x) (nat_abs y) }
{
    whole::gcd(whole::magnitude(x), whole::magnitude(y))
}

// The greatest common divisor of the four entries. Of any four numbers at all. Most often the first two settle it.
pub fn divisor(m: [i64; 4]) -> u64
    ensures { result ≡ gcd4 m }
{
    let [a, b, c, d] = m.map(whole::magnitude);
    let f = whole::gcd(a, b);
    if f == 1 {
        return 1;
    }
    whole::gcd(f, whole::gcd(c, d))
}

// The four numbers divided by a divisor of them. Signs stay. (`map` was tried, here and in `halves`: the proof did not close.)
pub fn quotients(m: [i64; 4], g: u64) -> [i64; 4]
    requires { (Divides4 g m) × (0 < g) × (g < 9223372036854775808) }
    ensures { result ≡ divided m g }
{
    let [a, b, c, d] = m;
    [
        whole::quotient(a, g),
        whole::quotient(b, g),
        whole::quotient(c, g),
        whole::quotient(d, g),
    ]
}

// "Cancelling hands back its divisor beside the matrix" (document 02, T-02).
#[derive(Clone, Copy)]
pub struct Cancelled {
    pub divisor: u64,
    pub matrix: [i64; 4],
}

impl Cancelled {
    // A matrix whose entries have no divisor but 1: it stays as it is.
    pub fn kept(matrix: [i64; 4]) -> Cancelled
        ensures { result ≡ record { divisor = 1; matrix = matrix } }
    {
        Cancelled { divisor: 1, matrix }
    }
}

// "To cancel a matrix, divide it by the greatest common divisor of the four entries. Signs stay." Most products have none but 1, and are not divided.
pub fn cancel(m: [i64; 4]) -> Cancelled
    requires { (Within 200000000000 m) × (0 < gcd4 m) }
    ensures { (result.divisor ≡ gcd4 m) × (result.matrix ≡ cancel_of m) }
{
    let g = divisor(m);
    if g == 1 {
        return Cancelled::kept(m);
    }
    Cancelled {
        divisor: g,
        matrix: quotients(m, g),
    }
}

// Whether four numbers are all even. All four are looked at, so that there is nothing to branch on but the answer. (`all` was tried: the proof
// did not close.)
pub fn even(m: [i64; 4]) -> bool
    ensures { (result ≡ true) ↔ Divides4 2 m }
{
    let [a, b, c, d] = m;
    (a % 2 == 0) & (b % 2 == 0) & (c % 2 == 0) & (d % 2 == 0)
}

// The halves of four even numbers. A shift rounds down, but an even number has nothing to round, so that "Signs stay".
pub fn halves(m: [i64; 4]) -> [i64; 4]
    requires { Divides4 2 m }
    ensures { result ≡ divided m 2 }
{
    let [a, b, c, d] = m;
    [a >> 1, b >> 1, c >> 1, d >> 1]
}

// A matrix whose divisor divides 2, cancelled: the divisor is 2 where all four entries are even, and else 1.
fn halved(m: [i64; 4]) -> Cancelled
    requires { gcd4 m ∣ 2 }
    ensures { (result.divisor ≡ gcd4 m) × (result.matrix ≡ cancel_of m) }
{
    if even(m) {
        Cancelled {
            divisor: 2,
            matrix: halves(m),
        }
    } else {
        Cancelled::kept(m)
    }
}

// The greatest common divisor of the four entries and d: behind the first remainder of each entry no number in Euclid is above d.
pub fn shared(m: [i64; 4], d: u64) -> u64
    ensures { result ≡ gcd (gcd4 m) d }
{
    m.iter().fold(d, |g, x| whole::gcd(whole::magnitude(*x), g))
}

// "To cancel a matrix, divide it by the greatest common divisor of the four entries. Signs stay." As `cancel` does, from a number that the divisor divides:
// over a step that is the determinant of its digit (`divisor_divides`, crates/plane), 1 for every digit of R and 2 for every digit of B and D.
pub fn cancel_by(m: [i64; 4], d: u64) -> Cancelled
    requires { (Within 200000000000 m) × (0 < d) × (gcd4 m ∣ d) }
    ensures { (result.divisor ≡ gcd4 m) × (result.matrix ≡ cancel_of m) }
{
    match d {
        1 => Cancelled::kept(m),
        2 => halved(m),
        _ => {
            let common = shared(m, d);
            Cancelled {
                divisor: common,
                matrix: quotients(m, common),
            }
        }
    }
}
