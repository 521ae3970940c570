// Answers many job files from one input, each as the program `sledhillock` would: for tests that compare thousands of them. The input is, again and again, the length of a
// file (4 bytes, low byte first), the file, and how many places a list has (2 bytes); it ends between two files. The program's own list is never full: so, where the file
// reads, a fourth line follows, of a run with that list.
#![tactic(auto)]

use jobs::Job;
use std::io;
use test_input::{Input, Number};
use test_output::Output;

// Writes what is printed of a file.
fn answer(output: &mut Output, file: &[u8]) {
    let mut digits = [0u8; 8192];
    let mut text = [0u8; 40000];
    let n = printed::respond(file, &mut digits, &mut text);
    output.text(&text[..n]);
}

// Runs a job from its start, with as much room as the program gives, and this list, and writes the line of the run: its end, its counts and what it listed. (Of a file that reads
// the matrix opens and the word lies inside, and no run lists more than there is place for; all this is tested here again, so that nothing has to be proved.)
fn run_with(output: &mut Output, job: Job, file: &[u8], list: &mut [u64]) {
    let (Ok(state), Some(rest)) = (opening::open(job.matrix), file.get(job.word.start..)) else {
        return;
    };
    let Some(word) = rest.get(..job.word.length) else {
        return;
    };
    let mut digits = [0u8; 8192];
    let answer = unary::run(job.input, job.output, state, word, &mut digits, list);
    let Some(listed) = list.get(..answer.listed.0) else {
        return;
    };
    output.number(states::end_number(answer.stop));
    let counts = [answer.taken.0, answer.written.0, answer.listed.0];
    test_output::each(output, &counts);
    test_output::each(output, listed);
    output.text(b"\n");
}

// The fourth line of a file, where it reads, with so many places: the last ones of the buffer, or all where it has fewer.
fn answer_with_places(output: &mut Output, file: &[u8], places: usize) {
    let mut list = [0u64; 16384];
    let from = list.len().saturating_sub(places);
    let (Ok(job), Some(list)) = (jobs::read(file), list.get_mut(from..)) else {
        return;
    };
    run_with(output, job, file, list);
}

// Reads one file of so many bytes and the places of its list, and writes what is printed of it.
fn answer_one(input: &mut Input, output: &mut Output, length: usize) {
    let mut file = [0u8; 65536];
    let file = test_input::bytes(input, &mut file, length);
    let places = u16::read(input) as usize;
    answer(output, file);
    answer_with_places(output, file, places);
}

// A proved loop has to end, and nothing says that an input does: there are as many turns as no run uses up.
fn answer_all(input: &mut Input, output: &mut Output) {
    for _ in 0..u64::MAX {
        // No file is as long as is read where the input has ended.
        let length = u32::read(input) as usize;
        if 65536 < length {
            break;
        }
        answer_one(input, output, length);
        if !output.is_good() {
            break;
        }
    }
}

// What came before a failed read is printed.
fn main(rt: HostRuntime) -> io::Result<()> {
    let mut input = Input::new(rt.stdin());
    let mut output = Output::new(rt.stdout());
    answer_all(&mut input, &mut output);
    output.finish().and(input.finish())
}
