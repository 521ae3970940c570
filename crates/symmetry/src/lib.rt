// Turning and reflecting a digit: document 001's two laws, by which the eight digits of system B follow from one (request T-05). A digit comes and goes as its row of eight numbers.
// For the crate `digits`; nothing here is for plug-ins.
#![tactic(auto)]

ghost use Rattle.std.specs.Prelude.{◌≡◌};
ghost use Rattle.whole.specs.Range.{Within};
ghost use Rattle.plane.specs.Plane.{Interval, left, right, multiply_of};
ghost use Rattle.symmetry.specs.Row.{SmallRow, Turnable};
ghost use Rattle.symmetry.specs.Symmetry.{ends, lowest_ends, turned, reflected};

mod row; // row.rt: a row taken apart, and put together

// R(x) = (x + 1)/(1 − x).
const ROTATION: [i64; 4] = [1, 1, -1, 1];

// R's pseudoinverse, which leads back.
const BACK: [i64; 4] = [1, -1, 1, 1];

// x ↦ −x, which undoes itself.
const MIRROR: [i64; 4] = [-1, 0, 0, 1];

// The product m·f·n of a transformation with such a matrix on each side.
fn product_of_three(m: [i64; 4], f: [i64; 4], n: [i64; 4]) -> [i64; 4]
    requires { (Within 1 m) × (Within 100 f) × (Within 1 n) }
    ensures { result ≡ multiply_of (multiply_of m f) n }
{
    products::multiply(products::multiply(m, f), n)
}

// An interval with each end in lowest terms: an end is cancelled as a matrix with nothing else in it.
fn lowest_ends(w: [i64; 4]) -> [i64; 4]
    requires { (Within 200 w) × (Interval w) }
    ensures { result ≡ lowest_ends w }
{
    let [x0, x1, y0, y1] = w;
    let [x0, x1, ..] = cancelling::cancel([x0, x1, 0, 0]).matrix;
    let [y0, y1, ..] = cancelling::cancel([y0, y1, 0, 0]).matrix;
    [x0, x1, y0, y1]
}

// The ends of an interval changed over.
fn changed_over(w: [i64; 4]) -> [i64; 4]
    ensures { result ≡ ends (right w) (left w) }
{
    let [x0, x1, y0, y1] = w;
    [y0, y1, x0, x1]
}

// "F of a+2 is R F_a R inverse", and "the intervals follow the same laws".
pub fn turn(row: [i16; 8]) -> [i16; 8]
    requires { Turnable row }
    ensures { result ≡ turned row }
{
    let (f, w) = row::parts(row);
    let turned = cancelling::cancel(product_of_three(ROTATION, f, BACK));
    let ends = lowest_ends(products::image(ROTATION, w));
    row::joined(turned.matrix, ends)
}

// "F of 7−a at x is −F_a(−x)", and the interval by the same law, so that its right end becomes the left one.
pub fn reflect(row: [i16; 8]) -> [i16; 8]
    requires { SmallRow row }
    ensures { result ≡ reflected row }
{
    let (f, w) = row::parts(row);
    let mirrored = product_of_three(MIRROR, f, MIRROR);
    let ends = changed_over(products::image(MIRROR, w));
    row::joined(mirrored, ends)
}
