// The lines that the program prints: document 01's section "The program". Three of a run's answer, or one of a refused file, from the front of a buffer on.
// The second line is in crate `state_line`.
#![tactic(auto)]

ghost use Rattle.std.specs.Prelude.{◌+◌, ◌≤◌, length};
ghost use Rattle.text.specs.Wrote.{Wrote};
ghost use Rattle.lines.specs.Lines.{counts_line, answer_text, refused_text};

use unary::Answer;

// The first line.
fn put_counts(out: &mut [u8], at: usize, end: u8, taken: usize, written: usize) -> usize
    requires { at + 63 ≤ length out.old }
    ensures { Wrote out.old at (counts_line end taken written) 63 out.new result }
{
    let a = text::put_field(out, at, end as u64, b' ');
    let b = text::put_field(out, a, taken as u64, b' ');
    text::put_field(out, b, written as u64, b'\n')
}

// The three lines of a run's answer, with the bytes of its output.
pub fn put_answer(out: &mut [u8], answer: Answer, output: &[u8]) -> usize
    requires { (40000 ≤ length out.old) × (length output.now ≤ 8192) × (answer.written.0 ≤ length output.now) }
    ensures { Wrote out.old 0 (answer_text answer output.now) 40000 out.new result }
{
    let end = states::end_number(answer.stop);
    let a = put_counts(out, 0, end, answer.taken.0, answer.written.0);
    let b = state_line::put_state(out, a, answer.state);
    text::put_line(out, b, &output[..answer.written.0])
}

// The one line of a refused file.
pub fn put_refusal(out: &mut [u8], number: u8, section: u8) -> usize
    requires { 40000 ≤ length out.old }
    ensures { Wrote out.old 0 (refused_text number section) 40000 out.new result }
{
    let a = text::put_text(out, 0, b"refused ");
    let b = text::put_field(out, a, number as u64, b' ');
    text::put_field(out, b, section as u64, b'\n')
}
