// What the test programs call: each function here makes the calls of one case and prints what was answered.
#![tactic(auto)]

ghost use Rattle.std.specs.Prelude.{◌≡◌};
ghost use Rattle.digits.specs.Orders.{system_of};
ghost use Rattle.unary.specs.Run.{run_of};

use digits::System;
use states::State;
use test_input::Input;
use test_output::Output;

pub fn admission(output: &mut Output, s: System) {
    let number = refusals::outcome_number(admission::admit(s));
    test_output::each(output, &[number]);
}

// Behind a refusal no state is opened, and four zeros and no digit are printed.
pub fn opening(output: &mut Output, m: [i64; 4]) {
    let (number, state) = match opening::open(m) {
        Ok(state) => (0, state),
        Err(refusal) => (refusal.number(), states::opened([0; 4])),
    };
    test_output::each(output, &[number]);
    test_output::state(output, state);
}

// A system's rows turned into columns, and these turned back into rows of so many digits.
pub fn turned(
    output: &mut Output,
    rows: &[i16],
    columns: &mut [i16],
    digits: usize,
    back: &mut [i16],
) {
    let number = columns_call::columns(rows, columns);
    test_output::each(output, &[number]);
    test_output::list(output, columns);
    let number = columns_call::rows(digits, columns, back);
    test_output::each(output, &[number]);
    test_output::list(output, back);
}

// A run, which leaves its state in the place of the one that it began with.
pub fn run(
    output: &mut Output,
    inputs: System,
    outputs: System,
    state: &mut State,
    word: &[u8],
    room: &mut [u8],
    list: &mut [u64],
)
    ensures { (state.new ≡ (run_of (system_of inputs) (system_of outputs) state.old word.now room.old list.old).answer.state) ×
        (room.new ≡ (run_of (system_of inputs) (system_of outputs) state.old word.now room.old list.old).output) ×
        (list.new ≡ (run_of (system_of inputs) (system_of outputs) state.old word.now room.old list.old).divisors) }
{
    let answer = unary::run(inputs, outputs, *state, word, room, list);
    *state = answer.state;
    test_output::answer(output, answer);
    test_output::list(output, room);
    test_output::list(output, list);
}

// A word in two pieces, each a run of its own; the second is read here, and runs into the room behind the digits of the first, with the list behind its divisors. The counts are
// not printed, so that every cut of a word has the same line. (No run counts more than there is room and place for, which is tested here again, so that nothing has to be proved.)
pub fn cut(
    input: &mut Input,
    output: &mut Output,
    inputs: System,
    outputs: System,
    state: &mut State,
    word: &[u8],
    room: &mut [u8],
    list: &mut [u64],
) {
    let mut buffer = [0u8; 64];
    let second = test_input::word(input, &mut buffer);
    let first = unary::run(inputs, outputs, *state, word, room, list);
    let (Some(room_left), Some(list_left)) = (
        room.get_mut(first.written.0..),
        list.get_mut(first.listed.0..),
    ) else {
        *state = first.state;
        return;
    };
    let answer = unary::run(inputs, outputs, first.state, second, room_left, list_left);
    *state = answer.state;
    test_output::pieces(output, answer);
    test_output::list(output, room);
    test_output::list(output, list);
}
