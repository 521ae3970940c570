// The digits of R and of B as constants, for runs that have these systems (crate `built_in`): nothing of theirs is read, and with R nothing is multiplied, since its numbers
// are 0, 1 and −1. Each function is the general one of `products` or `fitting`, a digit at a time. For the crates of a step; nothing here is for plug-ins.
#![tactic(auto)]

ghost use Rattle.std.specs.Prelude.{◌≡◌, ◌<◌};
ghost use Rattle.whole.specs.Range.{Within};
ghost use Rattle.plane.specs.Plane.{Interval, multiply_of, pseudoinverse_of, image_of};
ghost use Rattle.digits.specs.System.{transformation, interval};
ghost use Rattle.digits.specs.BuiltIn.{table_of, rows_r, rows_b};
ghost use Rattle.fitting.specs.FirstFit.{fitting_of, fitting};

// X.W, for the interval of a digit of R.
pub fn image_r(x: [i64; 4], a: u8) -> [i64; 4]
    requires { (Within 1000000000 x) × (a < 4) }
    ensures { result ≡ image_of x (interval (table_of rows_r) a) }
{
    match a {
        0 => products::image(x, [0, 1, 1, 1]),
        1 => products::image(x, [1, 1, 1, 0]),
        2 => products::image(x, [1, 0, 1, -1]),
        _ => products::image(x, [-1, 1, 0, 1]),
    }
}

// pseudoinverse(G)·X, for the transformation of a digit of R.
pub fn given_r(x: [i64; 4], a: u8) -> [i64; 4]
    requires { (Within 1000000000 x) × (a < 4) }
    ensures { result ≡ multiply_of (pseudoinverse_of (transformation (table_of rows_r) a)) x }
{
    match a {
        0 => products::multiply([1, 0, -1, 1], x),
        1 => products::multiply([1, -1, 0, 1], x),
        2 => products::multiply([1, 1, 0, 1], x),
        _ => products::multiply([1, 0, 1, 1], x),
    }
}

// X.F, for the transformation of a digit of R.
pub fn absorbed_r(x: [i64; 4], a: u8) -> [i64; 4]
    requires { (Within 1000000000 x) × (a < 4) }
    ensures { result ≡ multiply_of x (transformation (table_of rows_r) a) }
{
    match a {
        0 => products::multiply(x, [1, 0, 1, 1]),
        1 => products::multiply(x, [1, 1, 0, 1]),
        2 => products::multiply(x, [1, -1, 0, 1]),
        _ => products::multiply(x, [1, 0, -1, 1]),
    }
}

// The smallest digit of R whose interval includes the image.
pub fn fitting_r(image: [i64; 4]) -> Option<u8>
    requires { (Within 200000000000 image) × (Interval image) }
    ensures { result ≡ fitting (fitting_of (table_of rows_r) image) }
{
    if inclusion::included(image, [0, 1, 1, 1]) {
        return Some(0);
    }
    if inclusion::included(image, [1, 1, 1, 0]) {
        return Some(1);
    }
    if inclusion::included(image, [1, 0, 1, -1]) {
        return Some(2);
    }
    if inclusion::included(image, [-1, 1, 0, 1]) {
        return Some(3);
    }
    None
}

// The smallest digit of B whose interval includes the image. Every interval of B is narrower than a right angle, and so is what it includes: a wide image is in none.
pub fn fitting_b(image: [i64; 4]) -> Option<u8>
    requires { (Within 200000000000 image) × (Interval image) }
    ensures { result ≡ fitting (fitting_of (table_of rows_b) image) }
{
    if inclusion::wide(image) {
        return None;
    }
    if inclusion::included(image, [-1, 3, 1, 1]) {
        return Some(0);
    }
    if inclusion::included(image, [0, 1, 2, 1]) {
        return Some(1);
    }
    if inclusion::included(image, [1, 2, 1, 0]) {
        return Some(2);
    }
    if inclusion::included(image, [1, 1, 3, -1]) {
        return Some(3);
    }
    if inclusion::included(image, [3, 1, 1, -1]) {
        return Some(4);
    }
    if inclusion::included(image, [1, 0, 1, -2]) {
        return Some(5);
    }
    if inclusion::included(image, [-2, 1, 0, 1]) {
        return Some(6);
    }
    if inclusion::included(image, [-1, 1, 1, 3]) {
        return Some(7);
    }
    None
}
