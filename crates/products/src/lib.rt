// Products of matrices, and images of intervals, on machine words. What they are: crates/plane.
// A state's entries lie within ±1,000,000,000 and a digit's numbers within ±100, so the entries of their products and the ends of an image lie within ±200,000,000,000.
#![tactic(auto)]

ghost use Rattle.std.specs.Prelude.{◌≡◌, [], ◌∷◌, ◌+ℤ◌, ◌*ℤ◌};
ghost use Rattle.whole.specs.Range.{Within};
ghost use Rattle.plane.specs.Fits.{Products, FactorsFit};
ghost use Rattle.plane.specs.Plane.{multiply_of, image_of};

// a·x + b·y: an entry of a product.
pub fn dot(a: i64, b: i64, x: i64, y: i64) -> i64
    requires { Products (a ∷ b ∷ x ∷ y ∷ []) }
    ensures { result ≡ a *ℤ x +ℤ b *ℤ y }
{
    a * x + b * y
}

// The product m·n.
pub fn multiply(m: [i64; 4], n: [i64; 4]) -> [i64; 4]
    requires { FactorsFit m n }
    ensures { result ≡ multiply_of m n }
{
    let [a, b, c, d] = m;
    let [x, y, z, w] = n;
    [
        dot(a, b, x, z),
        dot(a, b, y, w),
        dot(c, d, x, z),
        dot(c, d, y, w),
    ]
}

// X.W, the image of an interval: the product with the ends as columns, written as rows again.
pub fn image(m: [i64; 4], w: [i64; 4]) -> [i64; 4]
    requires { (Within 1000000000 m) × (Within 100 w) }
    ensures { result ≡ image_of m w }
{
    let [x0, x1, y0, y1] = w;
    let [u0, v0, u1, v1] = multiply(m, [x0, y0, x1, y1]);
    [u0, u1, v0, v1]
}
