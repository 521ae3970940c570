// Runs over two words, over numbers and bytes that a plug-in lends (document 02, T-14): what a call answers, and what every lent number and byte is afterwards. `sled_open_sum`,
// `sled_open_difference`, `sled_open_product` and `sled_run_two` (crate `plugin`) are these for C. A state is eleven numbers: the eight, the held digits or −1, and the turn.
#![tactic(auto)]

ghost use Rattle.std.specs.Prelude.{◌≡◌, [], ◌∷◌, ◌++◌, length, drop};
ghost use Rattle.plane.specs.Scale.{entries};
ghost use Rattle.states.specs.State.{end_number};
ghost use Rattle.numbers.specs.Numbers.{lent_system, wrote};
ghost use Rattle.two_states.specs.TwoState.{opened_sum, opened_difference, opened_product};
ghost use Rattle.two_call.specs.TwoNumbers.{turn_number, turn_from, turn?, two_numbers, two_from, two_after};
ghost use Rattle.two_call.specs.TwoCall.{two_opened, after_two, two_call_of};

use bilinear::Form;
use binary::TwoAnswer;
use numbers::WRONG_LENGTH;
use two_states::{Turn, TwoState};

// ---- a state, as eleven numbers

// Whether a number is a turn.
fn turn_known(z: i64) -> bool
    ensures { result ≡ turn? z }
{
    matches!(z, 0 | 1)
}

// Whose turn a number stands for: y's above 0, else x's.
fn turn_from(z: i64) -> Turn
    ensures { result ≡ turn_from z }
{
    if 0 < z { Turn::OfY } else { Turn::OfX }
}

// The state that eleven numbers stand for. (A turn that is none is read as a held digit that no system has, and its sign says whose it is: specs/TwoNumbers.antt. So it is no `Option`.)
fn state_from(eleven: &[i64]) -> TwoState
    requires { length eleven.now ≡ 11 }
    ensures { result ≡ two_from eleven.now }
{
    TwoState {
        form: Form {
            numerator: numbers::matrix_from(eleven),
            denominator: numbers::matrix_from(&eleven[4..]),
        },
        x: if turn_known(eleven[10]) {
            numbers::held_from(eleven[8])
        } else {
            Some(255)
        },
        y: numbers::held_from(eleven[9]),
        turn: turn_from(eleven[10]),
    }
}

fn turn_number(turn: Turn) -> i64
    ensures { result ≡ turn_number turn }
{
    match turn {
        Turn::OfX => 0,
        Turn::OfY => 1,
    }
}

// The eight numbers, over the first eight of eleven.
fn put_form(form: Form, eleven: &mut [i64])
    requires { length eleven.old ≡ 11 }
    ensures { eleven.new ≡ entries form.numerator ++ entries form.denominator ++ drop 8 eleven.old }
{
    numbers::put_matrix(form.numerator, eleven);
    numbers::put_matrix(form.denominator, &mut eleven[4..]);
}

// A state written as eleven numbers.
fn put_state(s: TwoState, eleven: &mut [i64])
    requires { length eleven.old ≡ 11 }
    ensures { eleven.new ≡ two_numbers s }
{
    put_form(s.form, eleven);
    eleven[8] = numbers::held_number(s.x);
    eleven[9] = numbers::held_number(s.y);
    eleven[10] = turn_number(s.turn);
}

// ---- the calls

// An opened state, into a slice of exactly eleven numbers.
fn hand_out(s: TwoState, state: &mut [i64]) -> u32
    ensures { wrote result state.new ≡ two_opened s state.old }
{
    if state.len() != 11 {
        return WRONG_LENGTH;
    }
    put_state(s, state);
    0
}

// x + y: 0, and the state's eleven numbers are written; or 40, and nothing is.
pub fn open_sum(state: &mut [i64]) -> u32
    ensures { wrote result state.new ≡ two_opened opened_sum state.old }
{
    hand_out(two_states::open_sum(), state)
}

// x − y
pub fn open_difference(state: &mut [i64]) -> u32
    ensures { wrote result state.new ≡ two_opened opened_difference state.old }
{
    hand_out(two_states::open_difference(), state)
}

// x·y
pub fn open_product(state: &mut [i64]) -> u32
    ensures { wrote result state.new ≡ two_opened opened_product state.old }
{
    hand_out(two_states::open_product(), state)
}

// An answer: its number; the three counts, taken of x, taken of y and written; and the state, unless the run was refused.
fn put_answer(a: TwoAnswer, state: &mut [i64], counts: &mut [usize]) -> u32
    requires { (length state.old ≡ 11) × (length counts.old ≡ 3) }
    ensures { (result ≡ end_number a.stop) × (state.new ≡ two_after a.stop a.state state.old) × (counts.new ≡ a.x.0 ∷ a.y.0 ∷ a.written.0 ∷ []) }
{
    counts.copy_from_slice(&[a.x.0, a.y.0, a.written.0]);
    if !states::refused(a.stop) {
        put_state(a.state, state);
    }
    u32::from(states::end_number(a.stop))
}

// Runs: takes bytes of the two words and writes digits to the output until a step stops. Answers why; the state and the three counts, taken of x, taken of y and written, are written back.
pub fn run(
    in_digits: usize,
    in_columns: &[i16],
    out_digits: usize,
    out_columns: &[i16],
    state: &mut [i64],
    xs: &[u8],
    ys: &[u8],
    output: &mut [u8],
    counts: &mut [usize],
) -> u32
    ensures { after_two result state.new output.new counts.new ≡
        two_call_of (lent_system in_digits in_columns.now) (lent_system out_digits out_columns.now) xs.now ys.now state.old output.old counts.old }
{
    let (Some(inputs), Some(outputs)) = (
        numbers::system_from(in_digits, in_columns),
        numbers::system_from(out_digits, out_columns),
    ) else {
        return WRONG_LENGTH;
    };
    if state.len() != 11 || counts.len() != 3 {
        return WRONG_LENGTH;
    }
    let a = binary::run_lent(inputs, outputs, state_from(state), xs, ys, output);
    put_answer(a, state, counts)
}
