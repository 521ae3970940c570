// The three systems that are built in: R and D by their tables, in rows as document 01 prints them, B by its row 0; and how a table becomes a system.
ghost use Rattle.std.specs.Prelude.{◌≡◌};
ghost use Rattle.digits.specs.BuiltIn.{stored, rows_r, rows_b, rows_d};

use crate::System;
use crate::orders::in_columns;

// The built-in systems R and D, a row of eight numbers for each digit: F as a b c d, then W as x0 x1 y0 y1.
const R: [[i16; 8]; 4] = [
    [1, 0, 1, 1, 0, 1, 1, 1],
    [1, 1, 0, 1, 1, 1, 1, 0],
    [1, -1, 0, 1, 1, 0, 1, -1],
    [1, 0, -1, 1, -1, 1, 0, 1],
];

const D: [[i16; 8]; 4] = [
    [1, -1, 0, 2, -2, 1, 0, 1],
    [1, 0, 0, 2, -1, 2, 1, 2],
    [1, 1, 0, 2, 0, 1, 2, 1],
    [2, 0, 0, 1, 3, 2, 3, -2],
];

// Of B the row of its digit 0, in the same order. The other seven are worked out from it.
const B: [i16; 8] = [1, 0, 1, 2, -1, 3, 1, 1];

// The system that a table is: as many digits as it has rows.
fn system(rows: &[[i16; 8]]) -> System
    ensures { result ≡ stored rows.now }
{
    let mut columns = [0; 128];
    in_columns(rows.as_flattened(), &mut columns);
    System {
        count: rows.len(),
        columns,
    }
}

// The built-in system R (document 000).
pub fn system_r() -> System
    ensures { result ≡ stored rows_r }
{
    system(&R)
}

// The built-in system D (document 004, binary redundant).
pub fn system_d() -> System
    ensures { result ≡ stored rows_d }
{
    system(&D)
}

// The built-in system B (document 001, the maximal cover), by its two laws (crates/symmetry): 0 to 2 to 4 by turning, 0 to 7 by reflecting, 7 to 1 to 3 to 5 by turning, 1 to 6 by reflecting. By
// another way some interval comes out with the other sign at both ends: the same interval, and not document 01's numbers.
pub fn system_b() -> System
    ensures { result ≡ stored rows_b }
{
    let b2 = symmetry::turn(B);
    let b4 = symmetry::turn(b2);
    let b7 = symmetry::reflect(B);
    let b1 = symmetry::turn(b7);
    let b3 = symmetry::turn(b1);
    let b5 = symmetry::turn(b3);
    let b6 = symmetry::reflect(b1);
    system(&[B, b1, b2, b3, b4, b5, b6, b7])
}
