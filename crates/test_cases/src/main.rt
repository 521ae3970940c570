// Stored cases over the library's public functions, one line each: runs, sessions, openings, systems turned from rows into columns and back, and what is refused. The cases are in the file stdin beside src/, and stdout
// has what must be printed; expected.py writes both, and computes the lines in another way.
#![tactic(auto)]

use states::State;
use std::io;
use test_input::{Input, Number};
use test_output::Output;

// A run: two systems, a state, a word, a room as the bytes that stand there before, and a list as the numbers that do. (A byte says how many these are: 255 at most.)
fn run(input: &mut Input, output: &mut Output, kind: u8, state: &mut State) {
    let inputs = test_input::system(input);
    let outputs = test_input::system(input);
    *state = test_input::state(input, *state);
    let mut word = [0u8; 64];
    let word = test_input::word(input, &mut word);
    let mut room = [0u8; 64];
    let room = test_input::word(input, &mut room);
    let mut list = [0u64; 255];
    let places = u8::read(input) as usize;
    let list = test_input::numbers(input, &mut list, places);
    if kind == b'c' {
        test_calls::cut(input, output, inputs, outputs, state, word, room, list);
    } else {
        test_calls::run(output, inputs, outputs, state, word, room, list);
    }
}

// As many numbers as two bytes before them say.
fn counted<'a>(input: &mut Input, buffer: &'a mut [i16]) -> &'a mut [i16] {
    let n = u16::read(input);
    test_input::numbers(input, buffer, n as usize)
}

// Rows, the numbers that stand in the columns before, a count of digits, and those that stand in the rows that are written back.
fn turned(input: &mut Input, output: &mut Output) {
    let mut rows = [0i16; 160];
    let rows = counted(input, &mut rows);
    let mut columns = [0i16; 160];
    let columns = counted(input, &mut columns);
    let digits = u64::read(input) as usize;
    let mut back = [0i16; 160];
    let back = counted(input, &mut back);
    test_calls::turned(output, rows, columns, digits, back);
}

// A case of any kind, after the state that the case before left: its label, which is printed as it stands, and what was answered.
fn case(input: &mut Input, output: &mut Output, kind: u8, state: &mut State) {
    let mut label = [0u8; 64];
    output.text(test_input::word(input, &mut label));
    match kind {
        b'a' => test_calls::admission(output, test_input::system(input)),
        b'o' => test_calls::opening(output, test_input::matrix(input)),
        b't' => turned(input, output),
        _ => run(input, output, kind, state),
    }
    output.text(b"\n");
}

// A proved loop has to end, and nothing says that an input does: there are as many turns as no input uses up.
fn cases(input: &mut Input, output: &mut Output) {
    let mut state = states::opened([0; 4]);
    for _ in 0..u64::MAX {
        let kind = u8::read(input);
        if kind == 255 {
            break;
        }
        case(input, output, kind, &mut state);
    }
}

// What came before a failed read is printed.
fn main(rt: HostRuntime) -> io::Result<()> {
    let mut input = Input::new(rt.stdin());
    let mut output = Output::new(rt.stdout());
    cases(&mut input, &mut output);
    output.finish().and(input.finish())
}
