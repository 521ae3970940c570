// The eight numbers of a state over two words, on machine words (document 02, T-14): what absorbing and giving make of them, and cancelling.
// A state's numbers lie within ±1,000,000,000 and a digit's within ±100, so those of a product lie within ±200,000,000,000. For our crates above; nothing here is for plug-ins.
#![tactic(auto)]

ghost use Rattle.std.specs.Prelude.{◌≡◌, ◌<◌, ◌≤◌};
ghost use Rattle.std.specs.Int.{◌∣◌};
ghost use Rattle.whole.specs.Range.{Within};
ghost use Rattle.bilinear.specs.Form.{into_x, into_y, times_form, turned_over, half_from, of_halves};
ghost use Rattle.bilinear.specs.Lowest.{gcd8, lowest_form?, cancel_form, Divides8, WithinForm, within_form?};

// The coefficients of xy, x, y and 1 in the numerator, and in the denominator.
#[derive(Clone, Copy, Debug, PartialEq, Eq)]
pub struct Form {
    pub numerator: [i64; 4],
    pub denominator: [i64; 4],
}

// A matrix with rows and columns exchanged.
pub fn turned_over(f: [i64; 4]) -> [i64; 4]
    ensures { result ≡ turned_over f }
{
    [f[0], f[2], f[1], f[3]]
}

// X(F x, y): a digit of x is absorbed.
pub fn into_x(m: Form, f: [i64; 4]) -> Form
    requires { (WithinForm 1000000000 m) × (Within 100 f) }
    ensures { result ≡ into_x m f }
{
    let t = turned_over(f);
    Form {
        numerator: products::multiply(t, m.numerator),
        denominator: products::multiply(t, m.denominator),
    }
}

// X(x, F y): a digit of y is absorbed.
#[tactic(auto, unfolding(crate::specs::Form::into_y))]
pub fn into_y(m: Form, f: [i64; 4]) -> Form
    requires { (WithinForm 1000000000 m) × (Within 100 f) }
    ensures { result ≡ into_y m f }
{
    Form {
        numerator: products::multiply(m.numerator, f),
        denominator: products::multiply(m.denominator, f),
    }
}

// Two coefficients, above and below: from 0 those of xy and x, from 2 those of y and 1.
fn half_from(m: Form, p: usize) -> [i64; 4]
    requires { p ≤ 2 }
    ensures { result ≡ half_from p m }
{
    [
        m.numerator[p],
        m.numerator[p + 1],
        m.denominator[p],
        m.denominator[p + 1],
    ]
}

fn of_halves(a: [i64; 4], b: [i64; 4]) -> Form
    ensures { result ≡ of_halves a b }
{
    Form {
        numerator: [a[0], a[1], b[0], b[1]],
        denominator: [a[2], a[3], b[2], b[3]],
    }
}

// P·X: the product of P with each half.
pub fn times(p: [i64; 4], m: Form) -> Form
    requires { (Within 100 p) × (WithinForm 1000000000 m) }
    ensures { result ≡ times_form p m }
{
    of_halves(
        products::multiply(p, half_from(m, 0)),
        products::multiply(p, half_from(m, 2)),
    )
}

// Whether the eight numbers lie in the range of a state's entries, ±1,000,000,000. Of any eight numbers at all.
pub fn within_state(m: Form) -> bool
    ensures { result ≡ within_form? 1000000000 m }
{
    ranges::within::<1000000000>(m.numerator) & ranges::within::<1000000000>(m.denominator)
}

// Whether the eight numbers have no common divisor but 1. Of any eight numbers at all.
pub fn lowest(m: Form) -> bool
    ensures { result ≡ lowest_form? m }
{
    whole::gcd(
        cancelling::divisor(m.numerator),
        cancelling::divisor(m.denominator),
    ) == 1
}

// Cancelling, from a number that the divisor of the eight divides: over a step that is the determinant of its digit, 1 for every digit of R and 2 for every digit of B and D.
// (`cancelling::cancel_by` is the same of four: what can be shared, the tests and the divisions of four numbers, is that crate's. One function for both would have to take a list for its numbers.)
pub fn cancel_by(m: Form, d: u64) -> Form
    requires { (WithinForm 200000000000 m) × (0 < d) × (gcd8 m ∣ d) }
    ensures { result ≡ cancel_form m }
{
    if d == 1 {
        return m;
    }
    if d == 2 {
        return halved(m);
    }
    let g = cancelling::shared(m.denominator, cancelling::shared(m.numerator, d));
    Form {
        numerator: cancelling::quotients(m.numerator, g),
        denominator: cancelling::quotients(m.denominator, g),
    }
}

// Eight numbers whose divisor divides 2, cancelled.
fn halved(m: Form) -> Form
    requires { gcd8 m ∣ 2 }
    ensures { result ≡ cancel_form m }
{
    if cancelling::even(m.numerator) & cancelling::even(m.denominator) {
        return Form {
            numerator: cancelling::halves(m.numerator),
            denominator: cancelling::halves(m.denominator),
        };
    }
    m
}
