// Makes many calls over two words from one input: for tests that compare thousands of them (tests/compare_pairs). The input is, again and again, the length of a case (4 bytes,
// low byte first) and the case: `+`, `-`, `*` or `s` and a state's eleven numbers; the input system and the output system; two words, each behind its length (2 bytes); the room
// of a first call and more room for a second; and how many bytes of each word the first call gets. It ends between two cases. Three lines are printed: the first call, the second
// with all that the first did not take, and one call with everything.
#![tactic(auto)]

use digits::System;
use std::io;
use test_input::{Input, Number};
use test_output::Output;

// A state: opened for an operation, or handed in.
fn begin(input: &mut Input) -> [i64; 11] {
    let mut state = [0i64; 11];
    match u8::read(input) {
        b'+' => {
            two_call::open_sum(&mut state);
        }
        b'-' => {
            two_call::open_difference(&mut state);
        }
        b'*' => {
            two_call::open_product(&mut state);
        }
        _ => test_input::fill(input, &mut state),
    }
    state
}

// What a case's calls have in common: the two systems, and the state, which each call leaves for the next.
#[derive(Drop)]
struct Session {
    inputs: System,
    outputs: System,
    state: [i64; 11],
}

impl Session {
    // One call into so much room, of bytes that are 238 before, and its line: end, counts, state, and every byte of the output afterwards. It answers how many bytes of each word it
    // took, and how many digits it wrote. (No case has more room; where it had, nothing would be called.)
    fn call(&mut self, out: &mut Output, xs: &[u8], ys: &[u8], room: usize) -> [usize; 3] {
        let mut output = [238u8; 1024];
        let Some(output) = output.get_mut(..room) else {
            return [0; 3];
        };
        let mut counts = [0usize; 3];
        let number = two_call::run(
            self.inputs.count,
            &self.inputs.columns,
            self.outputs.count,
            &self.outputs.columns,
            &mut self.state,
            xs,
            ys,
            output,
            &mut counts,
        );
        out.number(number);
        test_output::each(out, &counts);
        test_output::list(out, &self.state);
        test_output::list(out, output);
        out.text(b"\n");
        counts
    }
}

// The first call, with so many bytes of each word, and the second, with all that the first did not take. (No call takes or writes more than there is, which is tested here again, so
// that nothing has to be proved.)
fn in_two(
    session: &mut Session,
    out: &mut Output,
    xs: &[u8],
    i: usize,
    ys: &[u8],
    j: usize,
    room: u16,
    more: u16,
) {
    let (Some(first_xs), Some(first_ys)) = (xs.get(..i), ys.get(..j)) else {
        return;
    };
    let room = usize::from(room);
    let [x, y, written] = session.call(out, first_xs, first_ys, room);
    let (Some(left_xs), Some(left_ys), Some(left)) = (
        xs.get(x..),
        ys.get(y..),
        room.checked_sub(written),
    ) else {
        return;
    };
    session.call(out, left_xs, left_ys, left + usize::from(more));
}

// One case: two calls, and one with everything.
fn answer_one(input: &mut Input, out: &mut Output) {
    let state = begin(input);
    let inputs = test_input::system(input);
    let outputs = test_input::system(input);
    let mut xs = [0u8; 512];
    let xs = test_input::long_word(input, &mut xs);
    let mut ys = [0u8; 512];
    let ys = test_input::long_word(input, &mut ys);
    let room = u16::read(input);
    let more = u16::read(input);
    let i = u16::read(input) as usize;
    let j = u16::read(input) as usize;
    let mut session = Session {
        inputs,
        outputs,
        state,
    };
    in_two(&mut session, out, xs, i, ys, j, room, more);
    session.state = state;
    session.call(out, xs, ys, usize::from(room) + usize::from(more));
}

// A proved loop has to end, and nothing says that an input does: there are as many turns as no run uses up.
fn answer_all(input: &mut Input, out: &mut Output) {
    for _ in 0..u64::MAX {
        // No case is as long as is read where the input has ended.
        if 65536 < u32::read(input) {
            break;
        }
        answer_one(input, out);
    }
}

// What came before a failed read is printed.
fn main(rt: HostRuntime) -> io::Result<()> {
    let mut input = Input::new(rt.stdin());
    let mut out = Output::new(rt.stdout());
    answer_all(&mut input, &mut out);
    out.finish().and(input.finish())
}
