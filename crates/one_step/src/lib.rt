// One step of the unary algorithm: which of document 01's five lines applies. What each does is in the crate `steps`. For the crate `unary`; nothing here is for plug-ins.
#![tactic(auto)]

ghost use Rattle.std.specs.Prelude.{◌≡◌, true, List, ℕ, ◌-◌, ◌<◌, drop, pos, ◌<ℤ◌};
ghost use Rattle.whole.specs.Range.{Within};
ghost use Rattle.plane.specs.Plane.{determinant_of, image_of};
ghost use Rattle.digits.specs.System.{SameDigits, interval};
ghost use Rattle.digits.specs.BuiltIn.{table_of, rows_r, rows_b};
ghost use Rattle.digits.specs.Orders.{viewed};
ghost use Rattle.fitting.specs.FirstFit.{fitting_of, fitting, fits};
ghost use Rattle.steps.specs.Step.{setting, one_word, chosen, held_plan, emit_plan, plan};
ghost use Rattle.steps.specs.Made.{Follows, WorksWith, WorksWhere, OfR, HeldRecognised, Recognised, Usable, Ready};

use digits::SystemView;
use states::State;
use steps::Move;

// Lines 4 and 5, by what was found to fit: that digit is given out, and where none does the held digit h is absorbed.
#[inline(always)]
fn emitted(
    r: bool,
    inputs: SystemView,
    outputs: SystemView,
    s: State,
    h: u8,
    fit: Option<u8>,
    o: usize,
    room: usize,
    p: usize,
    list: usize,
) -> Move
    requires { (WorksWith (viewed inputs) s h) × (OfR r (viewed inputs) h) × (WorksWhere r (viewed outputs) s (fits fit)) }
    ensures { (bytes : List ℕ) → Follows (held_plan (setting (viewed inputs.entry) (viewed outputs.entry)) s h (fits fit)) s (one_word bytes (room - o) (list - p)) result }
{
    match fit {
        Some(b) => steps::give(r, outputs, s, b, o, room, p, list),
        None => steps::absorb(r, inputs, s, h, p, list),
    }
}

// The search of line 4 where both systems are R.
fn fitting_of_r(s: State, h: u8) -> Option<u8>
    requires { (Within 1000000000 s.matrix) × (pos 0 <ℤ determinant_of s.matrix) × (h < 4) }
    ensures { result ≡ fitting (fitting_of (table_of rows_r) (image_of s.matrix (interval (table_of rows_r) h))) }
{
    built_in_digits::fitting_r(built_in_digits::image_r(s.matrix, h))
}

// The search of line 4 in any other system, which is B where b is true.
fn fitting_of(b: bool, inputs: SystemView, outputs: SystemView, s: State, h: u8) -> Option<u8>
    requires { (WorksWith (viewed inputs) s h) × (Usable (viewed outputs)) × (b ≡ true → SameDigits (viewed outputs) (table_of rows_b)) }
    ensures { result ≡ fitting (chosen (setting (viewed inputs.entry) (viewed outputs.entry)) s h) }
{
    let w = inputs.interval(h as usize);
    let image = products::image(s.matrix, w);
    if b {
        return built_in_digits::fitting_b(image);
    }
    fitting::fitting_digit(outputs, image)
}

// Lines 4 and 5: the digit h is held. `emitted` is called in two places, with R or not as a constant: so the compiler makes two
// ways of it, and in R's nothing is read (docs/DECISIONS.md).
fn emit(
    r: bool,
    b: bool,
    inputs: SystemView,
    outputs: SystemView,
    s: State,
    h: u8,
    o: usize,
    room: usize,
    p: usize,
    list: usize,
) -> Move
    requires { (WorksWith (viewed inputs) s h) × (Usable (viewed outputs)) × (HeldRecognised r b (viewed inputs) h (viewed outputs)) }
    ensures { (bytes : List ℕ) → Follows (emit_plan (setting (viewed inputs.entry) (viewed outputs.entry)) s h) s (one_word bytes (room - o) (list - p)) result }
{
    if r {
        let fit = fitting_of_r(s, h);
        return emitted(true, inputs, outputs, s, h, fit, o, room, p, list);
    }
    let fit = fitting_of(b, inputs, outputs, s, h);
    emitted(false, inputs, outputs, s, h, fit, o, room, p, list)
}

// One step, first line that applies, behind i bytes taken, o digits written and p divisors listed, where the output has room for so many in all, and the list too. The next
// byte is read only where nothing is held. (What is free is not handed over: the loop would keep it beside o and p.)
pub fn step(
    r: bool,
    b: bool,
    inputs: SystemView,
    outputs: SystemView,
    s: State,
    input: &[u8],
    i: usize,
    o: usize,
    room: usize,
    p: usize,
    list: usize,
) -> Move
    requires { (Ready (setting (viewed inputs) (viewed outputs)) s) × (Recognised r b (setting (viewed inputs) (viewed outputs))) }
    ensures { Follows (plan (setting (viewed inputs.entry) (viewed outputs.entry)) s) s (one_word (drop i input.now) (room - o) (list - p)) result }
{
    match s.held {
        None => steps::load(inputs.count, s, input, i),
        Some(h) => emit(r, b, inputs, outputs, s, h, o, room, p, list),
    }
}
