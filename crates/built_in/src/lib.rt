// Which built-in systems a run has: found out once a run, so that its steps can have the digits of R and of B as constants (crate `built_in_digits`). A system is R if it has as
// many digits as R and their numbers; what stands in unused places does not count. For the crate `unary`; nothing here is for plug-ins.
#![tactic(auto)]

ghost use Rattle.std.specs.Prelude.{◌≡◌, ◌<◌, ◌≤◌, length};
ghost use Rattle.digits.specs.BuiltIn.{rows_r, rows_b};
ghost use Rattle.digits.specs.Orders.{seen};
ghost use Rattle.built_in.specs.Recognised.{Decides, IsTable, row_in};

use digits::SystemView;

// With fewer bytes of input a run does not look. With so many it pays; from how many on it does was not searched for (docs/DECISIONS.md).
const WORTH: usize = 8;

// The rows of R, and of B.
const R: [[i16; 8]; 4] = [
    [1, 0, 1, 1, 0, 1, 1, 1],
    [1, 1, 0, 1, 1, 1, 1, 0],
    [1, -1, 0, 1, 1, 0, 1, -1],
    [1, 0, -1, 1, -1, 1, 0, 1],
];

const B: [[i16; 8]; 8] = [
    [1, 0, 1, 2, -1, 3, 1, 1],
    [1, 1, 0, 2, 0, 1, 2, 1],
    [2, 0, 1, 1, 1, 2, 1, 0],
    [2, 1, 0, 1, 1, 1, 3, -1],
    [2, -1, 0, 1, 3, 1, 1, -1],
    [2, 0, -1, 1, 1, 0, 1, -2],
    [1, -1, 0, 2, -2, 1, 0, 1],
    [1, 0, -1, 2, -1, 1, 1, 3],
];

// Whether digit a has these eight numbers.
fn has_row(system: SystemView, a: usize, row: [i16; 8]) -> bool
    requires { a < 16 }
    ensures { Decides result (row_in (seen system.entry).columns a ≡ row) }
{
    let columns = system.columns;
    (0..8).all(|j| columns[16 * j + a] == row[j])
}

// Whether a system is this table: as many digits as it has rows, and their numbers.
fn is_table(system: SystemView, rows: &[[i16; 8]]) -> bool
    requires { length rows.now ≤ 16 }
    ensures { Decides result (IsTable rows.now (seen system.entry).count (seen system.entry).columns) }
{
    system.count == rows.len() && (0..rows.len()).all(|a| has_row(system, a, rows[a]))
}

// Whether both systems of a run are R. Where fewer bytes of input come than WORTH, it does not look, and the answer is no.
pub fn both_r(bytes: usize, inputs: SystemView, outputs: SystemView) -> bool
    ensures { Decides result ((8 ≤ bytes) × (IsTable rows_r (seen inputs.entry).count (seen inputs.entry).columns) × (IsTable rows_r (seen outputs.entry).count (seen outputs.entry).columns)) }
{
    WORTH <= bytes && is_table(inputs, &R) && is_table(outputs, &R)
}

// Whether the output system is B, in the same way.
pub fn is_b(bytes: usize, outputs: SystemView) -> bool
    ensures { Decides result ((8 ≤ bytes) × (IsTable rows_b (seen outputs.entry).count (seen outputs.entry).columns)) }
{
    WORTH <= bytes && is_table(outputs, &B)
}
