// The job file: document 01's sections "Job file" and "Numbers of refusal", and document 02's T-01. Public: `read` with the types of its answer, and `write`. (The sections of a file, and the refusal of a file:
// crates/job_sections. Writing it: crates/job_writing.)
#![tactic(auto)]

ghost use Rattle.std.specs.Prelude.{◌≡◌};
ghost use Rattle.job_writing.specs.Writing.{contents, wrote, write_of, written_as};
ghost use Rattle.jobs.specs.Reading.{read_as, read_of};

use digits::System;
use job_sections::{FileRefusal, in_section};
use refusals::Refusal;

// Where the word stands in the file: its bytes stay there, and are not tested here.
#[derive(Clone, Copy)]
pub struct Word {
    pub start: usize,
    pub length: usize,
}

// A job: two systems, a matrix, and where the word stands.
#[derive(Clone, Copy)]
pub struct Job {
    pub input: System,
    pub output: System,
    pub matrix: [i64; 4],
    pub word: Word,
}

// Reads a job file, section by section, in one pass. Of any bytes at all.
pub fn read(file: &[u8]) -> Result<Job, FileRefusal>
    ensures { read_as result ≡ read_of file.now }
{
    let first = in_section(job_sections::system_section(file), 0)?;
    let a = first.size;
    let second = in_section(job_sections::system_section(&file[a..]), 1)?;
    let b = a + second.size;
    let third = in_section(job_sections::matrix_section(&file[b..]), 2)?;
    let c = b + third.size;
    let rest = &file[c..];
    let length = sections::presence(rest, 0, 4096, Refusal::CutOff, Refusal::WordCount, 1);
    let length = in_section(length, 3)?;
    if 2 + length < rest.len() {
        return in_section(Err(Refusal::BytesFollow), 3);
    }
    let matrix = third.value; // (an array goes into a literal by a variable)
    Ok(Job {
        input: first.value,
        output: second.value,
        matrix,
        word: Word {
            start: c + 2,
            length,
        },
    })
}

// Fills the buffer with the job file of two systems, a matrix and a word. Of any systems, matrix, word and buffer at all.
pub fn write(
    input: System,
    output: System,
    matrix: [i64; 4],
    word: &[u8],
    buffer: &mut [u8],
) -> Result<usize, FileRefusal>
    ensures { wrote (written_as result) buffer.new ≡ write_of (contents input output matrix word.now) buffer.old }
{
    job_writing::write_lent(input.view(), output.view(), matrix, word, buffer)
}
