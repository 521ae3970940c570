// Inclusion of intervals: document 01's "I is included in J exactly if every point inside I is inside J", decided by the signs of three determinants.
// An image's ends lie within ±200,000,000,000 and a digit's numbers within ±100, so no determinant that is formed here leaves 64 bits. No product of two determinants is
// formed: their signs are compared.
#![tactic(auto)]

ghost use Rattle.std.specs.Prelude.{◌≡◌};
ghost use Rattle.whole.specs.Range.{Near, Within};
ghost use Rattle.plane.specs.Plane.{Interval};
ghost use Rattle.inclusion.specs.Inclusion.{included?, sides_of};
ghost use Rattle.inclusion.specs.Wide.{apart?, wide?};

// The two determinants of an end x of I with the ends of J = (u, v): det(x, u), det(x, v). For the cover test of admission, where I is a digit's interval too.
pub fn sides(x0: i64, x1: i64, j: [i64; 4]) -> [i64; 2]
    requires { (Near 200000000000 x0) × (Near 200000000000 x1) × (Within 100 j) }
    ensures { result ≡ sides_of x0 x1 j }
{
    let [u0, u1, v0, v1] = j;
    [
        plane::determinant([x0, x1, u0, u1]),
        plane::determinant([x0, x1, v0, v1]),
    ]
}

// Whether an image I is included in a digit's interval J. With x, y for the ends of I and u, v for those of J, the signs of p = det(x, u), q = det(x, v) and s = det(y, v)
// decide: I is included exactly if q is below 0, p is not, and s is not above it; or so with all signs turned. Where p and s lie on one side of 0 it is not included,
// whatever q is, so q is formed last. It is not 0 where it is asked: p·s − q·det(y, u) is det(x, y)·det(u, v), a product of two numbers below 0.
pub fn included(i: [i64; 4], j: [i64; 4]) -> bool
    requires { (Within 200000000000 i) × (Within 100 j) × (Interval i) × (Interval j) }
    ensures { result ≡ included? i j }
{
    let [x0, x1, y0, y1] = i;
    let [u0, u1, v0, v1] = j;
    let p = plane::determinant([x0, x1, u0, u1]);
    let s = plane::determinant([y0, y1, v0, v1]);
    if p < 0 {
        if s < 0 {
            return false;
        }
        return 0 < plane::determinant([x0, x1, v0, v1]);
    }
    if 0 < p {
        if 0 < s {
            return false;
        }
        return plane::determinant([x0, x1, v0, v1]) < 0;
    }
    let q = plane::determinant([x0, x1, v0, v1]);
    if q < 0 {
        return s <= 0;
    }
    0 <= s
}

// Whether one of two numbers is below 0 and the other is not.
fn apart(p: i64, q: i64) -> bool
    ensures { result ≡ apart? p q }
{
    (p < 0) != (q < 0)
}

// Whether an interval holds two directions at right angles to each other: both axes or both diagonals. Then it is not narrower than a right angle, and so it is included in
// no interval that is. By signs of the ends alone: nothing is multiplied.
pub fn wide(i: [i64; 4]) -> bool
    requires { Within 200000000000 i }
    ensures { result ≡ wide? i }
{
    let [x0, x1, y0, y1] = i;
    let axes = apart(x0, y0) & apart(x1, y1);
    let diagonals = apart(x0 - x1, y0 - y1) & apart(x0 + x1, y0 + y1);
    axes | diagonals
}
