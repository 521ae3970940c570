// Writing a job file from numbers that a plug-in lends: what it answers, and what every lent number and byte is afterwards. `sled_write` (crate `plugin`) is this for C.
#![tactic(auto)]

ghost use Rattle.std.specs.Prelude.{◌≡◌};
ghost use Rattle.numbers.specs.Numbers.{lent_system};
ghost use Rattle.write_call.specs.WriteCall.{after_write, write_call_of};

use numbers::WRONG_LENGTH;

// Writes a job file: 0, and the file stands at the start of the buffer, with how many bytes it has in `written`; or the number of the refusal with its section, and nothing is written.
pub fn write(
    in_digits: usize,
    in_columns: &[i16],
    out_digits: usize,
    out_columns: &[i16],
    matrix: &[i64],
    word: &[u8],
    file: &mut [u8],
    written: &mut [usize],
) -> u32
    ensures { after_write result file.new written.new ≡
        write_call_of (lent_system in_digits in_columns.now) (lent_system out_digits out_columns.now) matrix.now word.now file.old written.old }
{
    let (Some(input), Some(output)) = (
        numbers::system_from(in_digits, in_columns),
        numbers::system_from(out_digits, out_columns),
    ) else {
        return WRONG_LENGTH;
    };
    if matrix.len() != 4 || written.len() != 1 {
        return WRONG_LENGTH;
    }
    match job_writing::write_lent(input, output, numbers::matrix_from(matrix), word, file) {
        Err(refused) => read_call::refusal_number(refused),
        Ok(bytes) => {
            written[0] = bytes;
            0
        }
    }
}
