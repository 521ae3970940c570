// The cover: document 01's "every point lies in the closed interval of some digit", which refusal 10 is about. The intervals leave no point out exactly if behind the
// right end of each, another goes on. For the crate `admission`; nothing here is for plug-ins.
#![tactic(auto)]

ghost use Rattle.std.specs.Prelude.{◌≡◌, ◌-◌, ◌<◌, ◌≤◌};
ghost use Rattle.whole.specs.Range.{Within};
ghost use Rattle.whole.specs.First.{first, found?};
ghost use Rattle.digits.specs.System.{Small};
ghost use Rattle.digits.specs.Orders.{interval_at, seen, viewed};
ghost use Rattle.cover.specs.Cover.{goes_on_behind?, some_goes_on?, covered?};

use digits::SystemView;

// Whether the interval w goes on behind the right end of v: it holds that end, and does not end there too.
// With z for that end and x, y for the ends of w: z is held where det(z, x)·det(z, y) is 0 or below, and w ends there where det(z, y) is 0. The two signs tell that of the product.
fn goes_on_behind(v: [i64; 4], w: [i64; 4]) -> bool
    requires { (Within 100 v) × (Within 100 w) }
    ensures { result ≡ goes_on_behind? v w }
{
    let d = inclusion::sides(v[2], v[3], w);
    let further = d[1];
    if further == 0 {
        return false;
    }
    if further < 0 {
        return 0 <= d[0];
    }
    d[0] <= 0
}

// Whether the interval of some digit below n, from a digit on, goes on behind the right end of v.
fn goes_on_from(from: usize, n: usize, system: SystemView, v: [i64; 4]) -> bool
    requires { (n ≤ (seen system).count) × ((seen system).count ≤ 16) × (Small (viewed system)) × (Within 100 v) }
    ensures { result ≡ found? (first (λ b. goes_on_behind? v (interval_at (seen system.entry).columns b)) (n - from) from) }
{
    (from..n).any(|b| goes_on_behind(v, system.interval(b)))
}

// Whether some digit's interval goes on behind the right end of digit a's, where its own ends. The digits behind a are tried first: most systems are written in the order of the line, and there
// the next digit goes on.
fn some_goes_on(system: SystemView, a: usize) -> bool
    requires { ((seen system).count ≤ 16) × (Small (viewed system)) × (a < (seen system).count) }
    ensures { result ≡ some_goes_on? (viewed system.entry) (interval_at (seen system.entry).columns a) }
{
    let v = system.interval(a);
    goes_on_from(a + 1, system.count, system, v) || goes_on_from(0, a, system, v)
}

// Whether the closed intervals leave no point out.
pub fn covered(system: SystemView) -> bool
    requires { ((seen system).count ≤ 16) × (Small (viewed system)) }
    ensures { result ≡ covered? (viewed system.entry) }
{
    (0..system.count).all(|a| some_goes_on(system, a))
}
