// Reading a job file into numbers that a plug-in lends. `sled_read` (crate `plugin`) is this for C.
#![tactic(auto)]

ghost use Rattle.std.specs.Prelude.{◌≡◌, ◌+◌, ◌*◌, length};
ghost use Rattle.refusals.specs.Numbers.{number_of};
ghost use Rattle.read_call.specs.ReadCall.{after_read, job_numbers, read_call_of};

use job_sections::FileRefusal;
use jobs::Job;
use numbers::WRONG_LENGTH;

// The number of a file's refusal, with its section 256 times: "The answer is the number and the section", as one number. Of writing a file too (crate `write_call`).
pub fn refusal_number(refused: FileRefusal) -> u32
    ensures { result ≡ number_of refused.refusal + 256 * refused.section }
{
    u32::from(refused.number()) + 256 * u32::from(refused.section)
}

// A job: the columns of each system, the matrix, and what else is found.
fn put_job(
    job: Job,
    in_columns: &mut [i16],
    out_columns: &mut [i16],
    matrix: &mut [i64],
    found: &mut [usize],
)
    requires { (length in_columns.old ≡ 128) × (length out_columns.old ≡ 128) × (length matrix.old ≡ 4) × (length found.old ≡ 4) }
    ensures { after_read 0 in_columns.new out_columns.new matrix.new found.new ≡ job_numbers job }
{
    numbers::put_columns(job.input, in_columns);
    numbers::put_columns(job.output, out_columns);
    numbers::put_matrix(job.matrix, matrix);
    found.copy_from_slice(&[
        job.input.count,
        job.output.count,
        job.word.start,
        job.word.length,
    ]);
}

// Reads a job file: 0, and the two systems, the matrix and what else is found are written; or the number of the refusal with its section, and nothing is written.
pub fn read(
    file: &[u8],
    in_columns: &mut [i16],
    out_columns: &mut [i16],
    matrix: &mut [i64],
    found: &mut [usize],
) -> u32
    ensures { after_read result in_columns.new out_columns.new matrix.new found.new ≡
        read_call_of file.now in_columns.old out_columns.old matrix.old found.old }
{
    if in_columns.len() != 128
        || out_columns.len() != 128
        || matrix.len() != 4
        || found.len() != 4
    {
        return WRONG_LENGTH;
    }
    match jobs::read(file) {
        Err(refused) => refusal_number(refused),
        Ok(job) => {
            put_job(job, in_columns, out_columns, matrix, found);
            0
        }
    }
}
