// A row of eight numbers taken apart and put together: "F as a b c d, then W as x0 x1 y0 y1".
ghost use Rattle.std.specs.Prelude.{◌≡◌};
ghost use Rattle.whole.specs.Range.{Within};
ghost use Rattle.symmetry.specs.Row.{transformation_in, interval_in, joined_row};

// F and W of a row.
pub(crate) fn parts(row: [i16; 8]) -> ([i64; 4], [i64; 4])
    ensures { (result.0 ≡ transformation_in row) × (result.1 ≡ interval_in row) }
{
    let [a, b, c, d, x0, x1, y0, y1] = row.map(i64::from);
    ([a, b, c, d], [x0, x1, y0, y1])
}

// A row: F, then W.
pub(crate) fn joined(f: [i64; 4], w: [i64; 4]) -> [i16; 8]
    requires { (Within 400 f) × (Within 400 w) }
    ensures { result ≡ joined_row f w }
{
    let [a, b, c, d] = f;
    let [x0, x1, y0, y1] = w;
    [
        a as i16, b as i16, c as i16, d as i16, x0 as i16, x1 as i16, y0 as i16, y1 as i16,
    ]
}
