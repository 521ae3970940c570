// Writing a job file: document 02's T-01. What is handed in is judged as the reader judges a file with these contents; then the four sections are written, each into the rest of the buffer behind the ones
// before it. `jobs::write` is this for systems by value; `write_lent` is for the crates above, which lend them.
#![tactic(auto)]

ghost use Rattle.std.specs.Prelude.{◌≡◌, ◌+◌, ◌*◌, ◌≤◌};
ghost use Rattle.whole.specs.Written.{written};
ghost use Rattle.digits.specs.Orders.{seen};
ghost use Rattle.job_sections.specs.Layout.{layout_of};
ghost use Rattle.job_writing.specs.Writing.{contents, Fits, judged_of, wrote, write_of, written_as};

use digits::SystemView;
use job_sections::{FileRefusal, in_section};
use refusals::Refusal;

// How many bytes the file has.
fn file_size(in_count: usize, out_count: usize, word: usize) -> usize
    requires { (in_count ≤ 16) × (out_count ≤ 16) × (word ≤ 4096) }
    ensures { result ≡ (2 + 16 * in_count) + (2 + 16 * out_count) + 10 + 2 + word }
{
    2 + 16 * in_count + (2 + 16 * out_count) + 10 + 2 + word
}

// "Refusals: those of the reader for the same contents, in its order". What passes may be written, where there is room for it.
fn judge(
    input: SystemView,
    output: SystemView,
    matrix: [i64; 4],
    word: &[u8],
) -> Result<usize, FileRefusal>
    ensures { written_as result ≡ judged_of (contents (seen input.entry) (seen output.entry) matrix word.now) }
{
    in_section(admission::admission_of(input), 0)?;
    in_section(admission::admission_of(output), 1)?;
    in_section(opening::opening_of(matrix), 2)?;
    if 4096 < word.len() {
        return in_section(Err(Refusal::WordCount), 3);
    }
    Ok(file_size(input.count, output.count, word.len()))
}

// The four sections, one behind the other.
fn put_sections(
    input: SystemView,
    output: SystemView,
    matrix: [i64; 4],
    word: &[u8],
    buffer: &mut [u8],
)
    requires { Fits (contents (seen input) (seen output) matrix word.now) buffer.old }
    ensures { buffer.new ≡ written (layout_of (contents (seen input.entry) (seen output.entry) matrix word.now)) buffer.old }
{
    let a = written_sections::put_system(buffer, input);
    let b = a + written_sections::put_system(&mut buffer[a..], output);
    let c = b + written_sections::put_matrix(&mut buffer[b..], matrix);
    written_sections::put_word(&mut buffer[c..], word);
}

// The file, of systems that are lent, and how many bytes it has. "Refusals: those of the reader ..; then 14, buffer too short, nothing written."
pub fn write_lent(
    input: SystemView,
    output: SystemView,
    matrix: [i64; 4],
    word: &[u8],
    buffer: &mut [u8],
) -> Result<usize, FileRefusal>
    ensures { wrote (written_as result) buffer.new ≡ write_of (contents (seen input.entry) (seen output.entry) matrix word.now) buffer.old }
{
    let size = judge(input, output, matrix, word)?;
    if buffer.len() < size {
        return in_section(Err(Refusal::BufferShort), 0);
    }
    put_sections(input, output, matrix, word, buffer);
    Ok(size)
}
