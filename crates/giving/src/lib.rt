// The digit that may be given out where two digits are held: a search (document 02, T-14). For the crate `two_steps`; nothing here is for plug-ins.
#![tactic(auto)]

ghost use Rattle.std.specs.Prelude.{◌≡◌, ◌≤◌};
ghost use Rattle.whole.specs.Range.{at, Near, Within};
ghost use Rattle.plane.specs.Plane.{left};
ghost use Rattle.bilinear.specs.Lowest.{WithinForm};
ghost use Rattle.digits.specs.Orders.{seen, viewed};
ghost use Rattle.fitting.specs.FirstFit.{Searchable, fitting};
ghost use Rattle.giving.specs.MayGive.{images_of, coefficients, all_coefficients, none_below?, none_above?, one_sided?, some_nought?, giving_of, columns_of_form};

use bilinear::Form;
use digits::SystemView;

// The four images of the pairs of interval ends, formed once for all digits that are tried: the ends of v absorbed in x, and those of w in y.
pub fn images(m: Form, v: [i64; 4], w: [i64; 4]) -> Form
    requires { (WithinForm 1000000000 m) × (Within 100 v) × (Within 100 w) }
    ensures { (columns_of_form result ≡ images_of m v w) × (WithinForm 40000000000000 result) }
{
    let t = bilinear::turned_over(w);
    Form {
        numerator: products::multiply(products::multiply(v, m.numerator), t),
        denominator: products::multiply(products::multiply(v, m.denominator), t),
    }
}

// The coefficients of one image in the ends of u, times the determinant of the ends.
fn coefficients_of(z: [i64; 2], u: [i64; 4]) -> [i64; 2]
    requires { (Near 40000000000000 (at z 0)) × (Near 40000000000000 (at z 1)) × (Within 100 u) }
    ensures { result ≡ coefficients u (left z) }
{
    [
        plane::determinant([z[0], z[1], u[2], u[3]]),
        plane::determinant([u[0], u[1], z[0], z[1]]),
    ]
}

// "all ≥ 0", of the two coefficients of one image. (Both are looked at, here and below, so that there is nothing to branch on but the answer: `all` stops at the first that fails.)
fn none_below(c: [i64; 2]) -> bool
    ensures { result ≡ none_below? c }
{
    (0 <= c[0]) & (0 <= c[1])
}

// "all ≤ 0".
fn none_above(c: [i64; 2]) -> bool
    ensures { result ≡ none_above? c }
{
    (c[0] <= 0) & (c[1] <= 0)
}

// Whether the coefficients of four images in the ends of u are all ≥ 0 or all ≤ 0. Most often the first image settles that they are not; the other three are asked together.
fn one_sided(images: Form, u: [i64; 4]) -> bool
    requires { (WithinForm 40000000000000 images) × (Within 100 u) }
    ensures { result ≡ one_sided? (all_coefficients u (columns_of_form images)) }
{
    let Form {
        numerator: over,
        denominator: under,
    } = images;
    let first = coefficients_of([over[0], under[0]], u);
    let up = none_below(first);
    let down = none_above(first);
    if !(up | down) {
        return false;
    }
    let second = coefficients_of([over[1], under[1]], u);
    let third = coefficients_of([over[2], under[2]], u);
    let fourth = coefficients_of([over[3], under[3]], u);
    (up & none_below(second) & none_below(third) & none_below(fourth))
        | (down & none_above(second) & none_above(third) & none_above(fourth))
}

// Whether some image is (0, 0). No digit's interval has to be looked at for that. (No `any`: all four are asked, so that there is nothing to branch on but the answer.)
fn some_nought(images: Form) -> bool
    ensures { result ≡ some_nought? (columns_of_form images) }
{
    let Form {
        numerator: over,
        denominator: under,
    } = images;
    ((over[0] == 0) & (under[0] == 0))
        | ((over[1] == 0) & (under[1] == 0))
        | ((over[2] == 0) & (under[2] == 0))
        | ((over[3] == 0) & (under[3] == 0))
}

// "the smallest such c"
pub fn giving_digit(outputs: SystemView, images: Form) -> Option<u8>
    requires { ((seen outputs).count ≤ 16) × (Searchable (viewed outputs)) × (WithinForm 40000000000000 images) }
    ensures { result ≡ fitting (giving_of (viewed outputs.entry) (columns_of_form images)) }
{
    if some_nought(images) {
        return None;
    }
    for c in 0..outputs.count {
        if one_sided(images, outputs.interval(c)) {
            return Some(c as u8);
        }
    }
    None
}
