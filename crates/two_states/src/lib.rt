// What a session over two words keeps between two calls (document 02, T-14). Public: `TwoState`, `Turn`, and the openings `open_sum`, `open_difference` and `open_product`.
// The rest is for our crates above.
#![tactic(auto)]

ghost use Rattle.std.specs.Prelude.{◌≡◌};
ghost use Rattle.bilinear.specs.Form.{over_one};
ghost use Rattle.two_states.specs.TwoState.{opened_two, opened_sum, opened_difference, opened_product, loaded_by, given_two, absorbed_by, two_state?};

use bilinear::Form;

// Whose digit is absorbed next, where none can be given out.
#[derive(Clone, Copy, Debug, PartialEq, Eq)]
pub enum Turn {
    OfX,
    OfY,
}

// The eight numbers, a held digit of each word or none, and whose turn it is.
#[derive(Clone, Copy, Debug, PartialEq, Eq)]
pub struct TwoState {
    pub form: Form,
    pub x: Option<u8>,
    pub y: Option<u8>,
    pub turn: Turn,
}

// A numerator over 1, nothing held, and x's turn.
fn opened(numerator: [i64; 4]) -> TwoState
    ensures { result ≡ opened_two (over_one numerator) }
{
    TwoState {
        form: Form {
            numerator,
            denominator: [0, 0, 0, 1],
        },
        x: None,
        y: None,
        turn: Turn::OfX,
    }
}

// x + y
pub fn open_sum() -> TwoState
    ensures { result ≡ opened_sum }
{
    opened([0, 1, 1, 0])
}

// x − y
pub fn open_difference() -> TwoState
    ensures { result ≡ opened_difference }
{
    opened([0, 1, -1, 0])
}

// x·y
pub fn open_product() -> TwoState
    ensures { result ≡ opened_product }
{
    opened([1, 0, 0, 0])
}

// A missing digit of one of the words is loaded; the eight numbers stay.
pub fn loaded(s: TwoState, word: Turn, digit: u8) -> TwoState
    ensures { result ≡ loaded_by word s digit }
{
    match word {
        Turn::OfX => TwoState {
            x: Some(digit),
            ..s
        },
        Turn::OfY => TwoState {
            y: Some(digit),
            ..s
        },
    }
}

// Eight new numbers, where a digit is given out.
pub fn given(s: TwoState, form: Form) -> TwoState
    ensures { result ≡ given_two s form }
{
    TwoState { form, ..s }
}

// Eight new numbers, nothing held in the word that was absorbed from, and the other's turn.
pub fn absorbed(s: TwoState, word: Turn, form: Form) -> TwoState
    ensures { result ≡ absorbed_by s form word }
{
    match word {
        Turn::OfX => TwoState {
            form,
            x: None,
            turn: Turn::OfY,
            ..s
        },
        Turn::OfY => TwoState {
            form,
            y: None,
            turn: Turn::OfX,
            ..s
        },
    }
}

// Whether a state keeps the rules, with an input system of n digits: what refusal 12 is about. Of any state at all.
pub fn state_kept(n: usize, s: TwoState) -> bool
    ensures { result ≡ two_state? n s }
{
    bilinear::within_state(s.form)
        && bilinear::lowest(s.form)
        && states::held_below(n, s.x)
        && states::held_below(n, s.y)
}
