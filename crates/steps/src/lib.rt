// What each line of a step does: document 01's section "The step", its five lines, and the divisors that document 02 lists. Which of them applies is in the crate
// `one_step`; nothing here is for plug-ins.
#![tactic(auto)]

ghost use Rattle.std.specs.Prelude.{◌≡◌, cond, List, ℕ, ◌-◌, drop};
ghost use Rattle.whole.specs.Range.{within?};
ghost use Rattle.whole.specs.Divisor.{gcd4};
ghost use Rattle.plane.specs.Plane.{multiply_of, cancel_of};
ghost use Rattle.digits.specs.Orders.{viewed};
ghost use Rattle.states.specs.Types.{RangeLeft};
ghost use Rattle.steps.specs.Step.{one_word, load_plan, given_matrix, give_plan, absorbed_matrix, absorb_plan};
ghost use Rattle.steps.specs.Made.{move, halt, Follows, Factors, WorksWith, OfR};

use cancelling::Cancelled;
use digits::SystemView;
use states::{State, Stop};

// What one step does: where X is cancelled, by which divisor.
#[derive(Clone, Copy, Debug, PartialEq, Eq)]
pub enum Kind {
    Load(u8),
    Give(u8, u64),
    Absorb(u64),
    Halt(Stop),
}

#[derive(Clone, Copy, Debug, PartialEq, Eq)]
pub struct Move {
    pub kind: Kind,
    pub state: State,
}

// Lines 1 to 3, where nothing is held: the byte behind the i that are taken becomes the held digit, if it is there and is a digit.
pub fn load(count: usize, s: State, input: &[u8], i: usize) -> Move
    ensures { (room list : ℕ) → Follows (load_plan count s) s (one_word (drop i input.now) room list) result }
{
    if i < input.len() {
        let b = input[i];
        if (b as usize) < count {
            return Move {
                kind: Kind::Load(b),
                state: states::loaded(s, b),
            };
        }
        return Move {
            kind: Kind::Halt(Stop::NotADigit),
            state: s,
        };
    }
    Move {
        kind: Kind::Halt(Stop::InputUsed),
        state: s,
    }
}

// A new state, if its entries lie in the range; else end 22, with the state before.
fn in_range(s: State, kind: Kind, t: State) -> Move
    ensures { result ≡ cond (within? 1000000000 t.matrix) (move kind t) (halt RangeLeft s) }
{
    if ranges::within::<1000000000>(t.matrix) {
        return Move { kind, state: t };
    }
    Move {
        kind: Kind::Halt(Stop::RangeLeft),
        state: s,
    }
}

// A product, cancelled: "X becomes .., cancelled". What is cancelled divides d.
fn product(m: [i64; 4], n: [i64; 4], d: u64) -> Cancelled
    requires { Factors m n d }
    ensures { (result.divisor ≡ gcd4 (multiply_of m n)) × (result.matrix ≡ cancel_of (multiply_of m n)) }
{
    cancelling::cancel_by(products::multiply(m, n), d)
}

// "pseudoinverse(G_b)·X, cancelled". The determinant of a digit of R is 1: there is nothing to cancel.
fn given_product(r: bool, outputs: SystemView, s: State, b: u8) -> Cancelled
    requires { (WorksWith (viewed outputs) s b) × (OfR r (viewed outputs) b) }
    ensures { (result.divisor ≡ gcd4 (given_matrix (viewed outputs.entry) s b)) × (result.matrix ≡ cancel_of (given_matrix (viewed outputs.entry) s b)) }
{
    if r {
        return Cancelled {
            divisor: 1,
            matrix: built_in_digits::given_r(s.matrix, b),
        };
    }
    let g = outputs.transformation(b as usize);
    let d = plane::determinant(g);
    product(plane::pseudoinverse(g), s.matrix, d as u64)
}

// "X·F_held, cancelled".
fn absorbed_product(r: bool, inputs: SystemView, s: State, h: u8) -> Cancelled
    requires { (WorksWith (viewed inputs) s h) × (OfR r (viewed inputs) h) }
    ensures { (result.divisor ≡ gcd4 (absorbed_matrix (viewed inputs.entry) s h)) × (result.matrix ≡ cancel_of (absorbed_matrix (viewed inputs.entry) s h)) }
{
    if r {
        return Cancelled {
            divisor: 1,
            matrix: built_in_digits::absorbed_r(s.matrix, h),
        };
    }
    let f = inputs.transformation(h as usize);
    let d = plane::determinant(f);
    product(s.matrix, f, d as u64)
}

// Line 4, its second half: the digit b is given out, if a place is free behind the o that are filled, and one in the list behind the p numbers that stand there.
pub fn give(
    r: bool,
    outputs: SystemView,
    s: State,
    b: u8,
    o: usize,
    room: usize,
    p: usize,
    list: usize,
) -> Move
    requires { (WorksWith (viewed outputs) s b) × (OfR r (viewed outputs) b) }
    ensures { (bytes : List ℕ) → Follows (give_plan (viewed outputs.entry) s b) s (one_word bytes (room - o) (list - p)) result }
{
    if room <= o {
        return Move {
            kind: Kind::Halt(Stop::NoRoom),
            state: s,
        };
    }
    if list <= p {
        return Move {
            kind: Kind::Halt(Stop::ListFull),
            state: s,
        };
    }
    let new = given_product(r, outputs, s, b);
    in_range(s, Kind::Give(b, new.divisor), states::given(s, new.matrix))
}

// Line 5: the held digit h is absorbed, if a place is free in the list.
pub fn absorb(r: bool, inputs: SystemView, s: State, h: u8, p: usize, list: usize) -> Move
    requires { (WorksWith (viewed inputs) s h) × (OfR r (viewed inputs) h) }
    ensures { (bytes : List ℕ) (room : ℕ) → Follows (absorb_plan (viewed inputs.entry) s h) s (one_word bytes room (list - p)) result }
{
    if list <= p {
        return Move {
            kind: Kind::Halt(Stop::ListFull),
            state: s,
        };
    }
    let new = absorbed_product(r, inputs, s, h);
    in_range(s, Kind::Absorb(new.divisor), states::opened(new.matrix))
}
