// Writes many job files from one input: for tests that compare thousands of them (tests/compare_writing). The input is, again and again, the length of a case (4 bytes, low byte first) and the case: the input
// system and the output system; the matrix, four numbers of 8 bytes; the word behind its length (2 bytes); and the length of the buffer (2 bytes). It ends between two cases. A line is printed of each: the number
// of the refusal, its section, how many bytes were written, and every byte of the buffer afterwards.
#![tactic(auto)]

use std::io;
use test_input::{Input, Number};
use test_output::Output;

// One case: the number of the refusal or 0, its section or 0, how many bytes were written, and every byte of the buffer. (No case has more than 8192; the test says it again.)
fn answer_one(input: &mut Input, output: &mut Output) {
    let inputs = test_input::system(input);
    let outputs = test_input::system(input);
    let matrix = test_input::matrix(input);
    let mut word = [0u8; 8192];
    let word = test_input::long_word(input, &mut word);
    let length = u16::read(input) as usize;
    let mut buffer = [238u8; 8192];
    let Some(buffer) = buffer.get_mut(..length) else {
        return;
    };
    match jobs::write(inputs, outputs, matrix, word, buffer) {
        Ok(written) => {
            output.text(b"0 0 ");
            output.number(written);
        }
        Err(refused) => {
            output.number(refused.number());
            test_output::each(output, &[refused.section, 0]);
        }
    }
    test_output::list(output, buffer);
    output.text(b"\n");
}

// A proved loop has to end, and nothing says that an input does: there are as many turns as no run uses up.
fn answer_all(input: &mut Input, output: &mut Output) {
    for _ in 0..u64::MAX {
        // No case is as long as is read where the input has ended.
        if 65536 < u32::read(input) {
            break;
        }
        answer_one(input, output);
    }
}

// What came before a failed read is printed.
fn main(rt: HostRuntime) -> io::Result<()> {
    let mut input = Input::new(rt.stdin());
    let mut output = Output::new(rt.stdout());
    answer_all(&mut input, &mut output);
    output.finish().and(input.finish())
}
