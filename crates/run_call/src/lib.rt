// A run, over numbers and bytes that a plug-in lends: what it answers, and what every lent number and byte is afterwards. `sled_run` (crate `plugin`) is this for C.
#![tactic(auto)]

ghost use Rattle.std.specs.Prelude.{◌≡◌, [], ◌∷◌, length};
ghost use Rattle.states.specs.State.{end_number};
ghost use Rattle.numbers.specs.Numbers.{lent_system, state_after};
ghost use Rattle.run_call.specs.RunCall.{after_run, run_call_of};

use numbers::WRONG_LENGTH;
use unary::Answer;

// An answer: its number; the three counts, taken, written and listed; and the state, unless the run was refused.
fn put_answer(a: Answer, state: &mut [i64], counts: &mut [usize]) -> u32
    requires { (length state.old ≡ 5) × (length counts.old ≡ 3) }
    ensures { (result ≡ end_number a.stop) × (state.new ≡ state_after a.stop a.state state.old) × (counts.new ≡ a.taken.0 ∷ a.written.0 ∷ a.listed.0 ∷ []) }
{
    counts.copy_from_slice(&[a.taken.0, a.written.0, a.listed.0]);
    if !states::refused(a.stop) {
        numbers::put_state(a.state, state);
    }
    u32::from(states::end_number(a.stop))
}

// Runs: takes bytes of the input, writes digits to the output and lists divisors until a step stops. Answers why; the state and the three counts, taken, written and listed, are written back.
pub fn run(
    in_digits: usize,
    in_columns: &[i16],
    out_digits: usize,
    out_columns: &[i16],
    state: &mut [i64],
    input: &[u8],
    output: &mut [u8],
    divisors: &mut [u64],
    counts: &mut [usize],
) -> u32
    ensures { after_run result state.new output.new divisors.new counts.new ≡
        run_call_of (lent_system in_digits in_columns.now) (lent_system out_digits out_columns.now) input.now state.old output.old divisors.old counts.old }
{
    let (Some(inputs), Some(outputs)) = (
        numbers::system_from(in_digits, in_columns),
        numbers::system_from(out_digits, out_columns),
    ) else {
        return WRONG_LENGTH;
    };
    if state.len() != 5 || counts.len() != 3 {
        return WRONG_LENGTH;
    }
    let a = unary::run_lent(
        inputs,
        outputs,
        numbers::state_from(state),
        input,
        output,
        divisors,
    );
    put_answer(a, state, counts)
}
