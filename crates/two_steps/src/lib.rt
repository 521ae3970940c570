// One step of a run over two words (document 02, T-14): which of its lines applies, and what each does. For the crate `binary`; nothing here is for plug-ins.
#![tactic(auto)]

ghost use Rattle.std.specs.Prelude.{◌≡◌, List, ℕ, ◌-◌, drop};
ghost use Rattle.digits.specs.Orders.{viewed};
ghost use Rattle.fitting.specs.FirstFit.{fits};
ghost use Rattle.steps.specs.Step.{setting};
ghost use Rattle.steps.specs.Made.{Usable};
ghost use Rattle.two_steps.specs.TwoStep.{two_words, choice, both_held, two_plan};
ghost use Rattle.two_steps.specs.Made.{Follows, moved_by, finished_by, no_room?, WorksWith, Cancellable, Ready};

mod loading; // loading.rt: a missing digit is loaded
mod making; // making.rt: the eight numbers that a step makes, before they are cancelled

use bilinear::Form;
use digits::SystemView;
use states::Stop;
use two_states::{Turn, TwoState};

// What one step does.
#[derive(Clone, Copy, Debug, PartialEq, Eq)]
pub enum Kind {
    Load(Turn, u8),
    Give(u8),
    Absorb,
    Halt(Stop),
}

#[derive(Clone, Copy, Debug, PartialEq, Eq)]
pub struct Move {
    pub kind: Kind,
    pub state: TwoState,
}

// The eight numbers that a step makes with the transformation of a digit, before they are cancelled, and the determinant of that: what is cancelled divides it.
#[derive(Clone, Copy, Debug, PartialEq, Eq)]
pub struct Product {
    pub form: Form,
    pub determinant: u64,
}

// The step, once its numbers are known to fit.
fn moved(s: TwoState, fit: Option<u8>, new: Form) -> Move
    ensures { result ≡ moved_by s new (fits fit) }
{
    match fit {
        Some(c) => Move {
            kind: Kind::Give(c),
            state: two_states::given(s, new),
        },
        None => Move {
            kind: Kind::Absorb,
            state: two_states::absorbed(s, s.turn, new),
        },
    }
}

// The numbers are cancelled, and the range is tested after that: end 22, with the state before, where one leaves it. Every step comes by here, and for speed it is the only place that cancels:
// what is called from several places is not inlined, and its numbers go through memory.
fn finished(s: TwoState, fit: Option<u8>, p: Product) -> Move
    requires { Cancellable p }
    ensures { result ≡ finished_by s p (fits fit) }
{
    let new = bilinear::cancel_by(p.form, p.determinant);
    if bilinear::within_state(new) {
        return moved(s, fit, new);
    }
    Move {
        kind: Kind::Halt(Stop::RangeLeft),
        state: s,
    }
}

// The smallest digit that may be given out, where a of x and b of y are held. The four images are formed once for all digits.
fn chosen(inputs: SystemView, outputs: SystemView, s: TwoState, a: u8, b: u8) -> Option<u8>
    requires { (WorksWith (viewed inputs) s a) × (WorksWith (viewed inputs) s b) × (Usable (viewed outputs)) }
    ensures { fits result ≡ choice (setting (viewed inputs.entry) (viewed outputs.entry)) s a b }
{
    let v = inputs.interval(a as usize);
    let w = inputs.interval(b as usize);
    giving::giving_digit(outputs, giving::images(s.form, v, w))
}

// Whether a digit was found and there is no place for it behind the o that are filled.
fn no_room(fit: Option<u8>, o: usize, room: usize) -> bool
    ensures { result ≡ no_room? (fits fit) o room }
{
    fit.is_some() && room <= o
}

// Both are held: the digit that was found is given out, if there is room for it, and where none was found, the one whose turn it is is absorbed.
fn emit(
    inputs: SystemView,
    outputs: SystemView,
    s: TwoState,
    a: u8,
    b: u8,
    o: usize,
    room: usize,
) -> Move
    requires { (WorksWith (viewed inputs) s a) × (WorksWith (viewed inputs) s b) × (Usable (viewed outputs)) }
    ensures { (xs ys : List ℕ) → Follows (both_held (setting (viewed inputs.entry) (viewed outputs.entry)) s a b
        (choice (setting (viewed inputs.entry) (viewed outputs.entry)) s a b)) s (two_words xs ys (room - o)) result }
{
    let fit = chosen(inputs, outputs, s, a, b);
    if no_room(fit, o, room) {
        return Move {
            kind: Kind::Halt(Stop::NoRoom),
            state: s,
        };
    }
    finished(s, fit, making::step_product(inputs, outputs, s, a, b, fit))
}

// One step, first line that applies, behind i and j bytes taken and o digits written, where the output has room for so many in all.
pub fn step(
    inputs: SystemView,
    outputs: SystemView,
    s: TwoState,
    xs: &[u8],
    i: usize,
    ys: &[u8],
    j: usize,
    o: usize,
    room: usize,
) -> Move
    requires { Ready (setting (viewed inputs) (viewed outputs)) s }
    ensures { Follows (two_plan (setting (viewed inputs.entry) (viewed outputs.entry)) s) s (two_words (drop i xs.now) (drop j ys.now) (room - o)) result }
{
    match (s.x, s.y) {
        (None, _) => loading::load(s, Turn::OfX, loading::next_byte(inputs.count, xs, i)),
        (Some(_), None) => loading::load(s, Turn::OfY, loading::next_byte(inputs.count, ys, j)),
        (Some(a), Some(b)) => emit(inputs, outputs, s, a, b, o, room),
    }
}
