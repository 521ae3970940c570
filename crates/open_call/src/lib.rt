// Opening over lent numbers: what the C function `sled_open` does.
#![tactic(auto)]

ghost use Rattle.std.specs.Prelude.{◌≡◌};
ghost use Rattle.numbers.specs.Numbers.{wrote};
ghost use Rattle.open_call.specs.OpenCall.{open_call_of};

use numbers::WRONG_LENGTH;

// A matrix of four numbers, opened: 0, and the state's five numbers are written; or the number of the refusal, and nothing is written.
pub fn open(matrix: &[i64], state: &mut [i64]) -> u32
    ensures { wrote result state.new ≡ open_call_of matrix.now state.old }
{
    if matrix.len() != 4 || state.len() != 5 {
        return WRONG_LENGTH;
    }
    match opening::open(numbers::matrix_from(matrix)) {
        Err(refusal) => u32::from(refusal.number()),
        Ok(s) => {
            numbers::put_state(s, state);
            0
        }
    }
}
