// Expanding: document 02's "W_a must be included in the set where the inverse of F_a expands", which refusal 18 is about. Three numbers decide it for a row, and no point is searched for.
// A row's numbers lie within ±100, so that no number that is formed here leaves ±4,800,000,000. For the crate `admission`; nothing here is for plug-ins.
#![tactic(auto)]

ghost use Rattle.std.specs.Prelude.{◌≡◌, ◌≤◌};
ghost use Rattle.whole.specs.Range.{Near, Within};
ghost use Rattle.digits.specs.Orders.{seen, viewed};
ghost use Rattle.expanding.specs.Expanding.{form_of, grows?, expands?, all_expand?, SmallRows};

use digits::SystemView;

// The symmetric matrix q with z·(q·z) = det F·(z0² + z1²) − (squared length of pseudoinverse(F)·z). With s the product of F and F with its rows for columns,
// [a² + b², ac + bd, ca + db, c² + d²], it is [det F − (c² + d²), ac + bd, ca + db, det F − (a² + b²)].
fn form(f: [i64; 4]) -> [i64; 4]
    requires { Within 100 f }
    ensures { result ≡ form_of f }
{
    let d = plane::determinant(f);
    let s = products::multiply(f, [f[0], f[2], f[1], f[3]]);
    [d - s[3], s[1], s[2], d - s[0]]
}

// Whether none of three numbers is below 0, and not all are 0.
fn grows(p: i64, b: i64, q: i64) -> bool
    requires { (Near 1600000000 p) × (Near 1600000000 b) × (Near 1600000000 q) }
    ensures { result ≡ grows? p b q }
{
    if p < 0 {
        return false;
    }
    if b < 0 {
        return false;
    }
    if q < 0 {
        return false;
    }
    0 < p + b + q
}

// Whether a row expands: the growth z·(q·z) at the two ends x and y of W, and x·(q·y) for the two mixed.
fn expands(f: [i64; 4], w: [i64; 4]) -> bool
    requires { (Within 100 f) × (Within 100 w) }
    ensures { result ≡ expands? f w }
{
    let i = products::image(form(f), w);
    grows(
        products::dot(w[0], w[1], i[0], i[1]),
        products::dot(w[0], w[1], i[2], i[3]),
        products::dot(w[2], w[3], i[2], i[3]),
    )
}

// Whether every row expands.
pub fn all_expand(system: SystemView) -> bool
    requires { ((seen system).count ≤ 16) × (SmallRows (viewed system)) }
    ensures { result ≡ all_expand? (viewed system.entry) }
{
    (0..system.count).all(|a| expands(system.transformation(a), system.interval(a)))
}
