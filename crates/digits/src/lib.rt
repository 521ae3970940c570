// Digit systems: document 01's section "A digit system". Which systems are admitted is the crate `admission`'s.
// Public: `System`, and the built-in `system_r`, `system_b`, `system_d`. The crates above ask a system for a digit's `transformation` and `interval`: only this crate knows where their numbers
// stand.
#![tactic(auto)]

ghost use Rattle.std.specs.Prelude.{◌≡◌, [], ◌∷◌, ◌+◌, ◌<◌};
ghost use Rattle.whole.specs.Range.{at};
ghost use Rattle.digits.specs.Orders.{seen, transformation_at, interval_at};

mod orders; // orders.rt: from rows to columns, and back
mod tables; // tables.rt: the built-in systems

pub use orders::{column_place, in_columns, in_rows, row_place};
pub use tables::{system_b, system_d, system_r};

// A system in memory: how many digits, and eight columns of sixteen numbers, one behind the other. Number j of digit a stands at 16·j + a. Whatever stands in the places of the digits from
// `count` on changes no answer.
#[derive(Clone, Copy)]
pub struct System {
    pub count: usize,
    pub columns: [i16; 128],
}

// A system that is lent: its count, and its columns where they stand. Nothing of it is copied, and it goes by value.
#[derive(Clone, Copy)]
pub struct SystemView<'a> {
    pub count: usize,
    pub columns: &'a [i16; 128],
}

impl System {
    // The system, lent.
    pub fn view(&self) -> SystemView<'_>
        ensures { seen result ≡ self.now }
    {
        SystemView {
            count: self.count,
            columns: &self.columns,
        }
    }
}

impl SystemView<'_> {
    // Four numbers of a digit: one from each of four columns, from a place on.
    fn four_from(self, p: usize) -> [i64; 4]
        requires { p + 48 < 128 }
        ensures { result ≡ at (seen self.entry).columns p ∷ at (seen self.entry).columns (p + 16) ∷ at (seen self.entry).columns (p + 32) ∷ at (seen self.entry).columns (p + 48) ∷ [] }
    {
        let columns = self.columns;
        [
            columns[p] as i64,
            columns[p + 16] as i64,
            columns[p + 32] as i64,
            columns[p + 48] as i64,
        ]
    }

    // Of digit a: its transformation, a b c d.
    pub fn transformation(self, a: usize) -> [i64; 4]
        requires { a < 16 }
        ensures { result ≡ transformation_at (seen self.entry).columns a }
    {
        self.four_from(a)
    }

    // And its interval, x0 x1 y0 y1. It reads the four columns of W, and none of F.
    pub fn interval(self, a: usize) -> [i64; 4]
        requires { a < 16 }
        ensures { result ≡ interval_at (seen self.entry).columns a }
    {
        self.four_from(64 + a)
    }
}
