// Points, matrices and intervals: document 01's section of that name, on machine words: determinants and pseudoinverses. Products and images are in the crate `products`.
// Its callers see to it that no determinant leaves 64 bits: an image's ends lie within ±200,000,000,000, and a digit's numbers within ±100.
#![tactic(auto)]

ghost use Rattle.std.specs.Prelude.{◌≡◌};
ghost use Rattle.whole.specs.Range.{Within};
ghost use Rattle.plane.specs.Fits.{Products};
ghost use Rattle.plane.specs.Plane.{determinant_of, pseudoinverse_of};

// "Its determinant is ad − bc." Of the two ends of an interval, written x0 x1 y0 y1, it is det(x, y).
pub fn determinant(m: [i64; 4]) -> i64
    requires { Products m }
    ensures { result ≡ determinant_of m }
{
    let [a, b, c, d] = m;
    a * d - b * c
}

// "Its pseudoinverse is [d, −b, −c, a]."
pub fn pseudoinverse(m: [i64; 4]) -> [i64; 4]
    requires { Within 1000000000 m }
    ensures { result ≡ pseudoinverse_of m }
{
    let [a, b, c, d] = m;
    [d, -b, -c, a]
}
