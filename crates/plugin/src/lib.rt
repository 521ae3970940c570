// The calls for other languages, over numbers and slices. Crate `plugin_c` exports each to C, and include/sledhillock.h says what each promises, in a C author's words.
// Crate `numbers` has how a system and a state are written; what the calls do is in `columns_call`, `open_call`, `run_call`, `read_call`, `write_call` and, for two words, `two_call`. A slice of the wrong length is refused by 40, and nothing is written.
#![tactic(auto)]

ghost use Rattle.std.specs.Prelude.{◌≡◌};
ghost use Rattle.digits.specs.BuiltIn.{stored, rows_r, rows_b, rows_d};
ghost use Rattle.columns_call.specs.ColumnsCall.{columns_call_of, rows_call};
ghost use Rattle.run_call.specs.RunCall.{after_run, run_call_of};
ghost use Rattle.read_call.specs.ReadCall.{after_read, read_call_of};
ghost use Rattle.write_call.specs.WriteCall.{after_write, write_call_of};
ghost use Rattle.numbers.specs.Numbers.{lent_system, wrote, handed_out};
ghost use Rattle.open_call.specs.OpenCall.{open_call_of};
ghost use Rattle.two_states.specs.TwoState.{opened_sum, opened_difference, opened_product};
ghost use Rattle.two_call.specs.TwoCall.{two_opened, after_two, two_call_of};
ghost use Rattle.plugin.specs.Calls.{admit_number};

use numbers::WRONG_LENGTH;

// Whether a system is admitted: 0, or the number of the first rule that it breaks.
pub fn sled_admit(digits: usize, columns: &[i16]) -> u32
    ensures { result ≡ admit_number (lent_system digits columns.now) }
{
    let Some(system) = numbers::system_from(digits, columns) else {
        return WRONG_LENGTH;
    };
    u32::from(refusals::outcome_number(admission::admission_of(system)))
}

// A system's rows, one behind the other, into columns.
pub fn sled_columns(rows: &[i16], columns: &mut [i16]) -> u32
    ensures { wrote result columns.new ≡ columns_call_of rows.now columns.old }
{
    columns_call::columns(rows, columns)
}

// And back: the rows of its digits.
pub fn sled_rows(digits: usize, columns: &[i16], rows: &mut [i16]) -> u32
    ensures { wrote result rows.new ≡ rows_call (lent_system digits columns.now) rows.old }
{
    columns_call::rows(digits, columns, rows)
}

// The built-in system R: its columns.
pub fn sled_system_r(columns: &mut [i16]) -> u32
    ensures { wrote result columns.new ≡ handed_out (stored rows_r) columns.old }
{
    numbers::hand_out(digits::system_r(), columns)
}

// The built-in system B: its columns.
pub fn sled_system_b(columns: &mut [i16]) -> u32
    ensures { wrote result columns.new ≡ handed_out (stored rows_b) columns.old }
{
    numbers::hand_out(digits::system_b(), columns)
}

// The built-in system D: its columns.
pub fn sled_system_d(columns: &mut [i16]) -> u32
    ensures { wrote result columns.new ≡ handed_out (stored rows_d) columns.old }
{
    numbers::hand_out(digits::system_d(), columns)
}

// Opens a session for a matrix of four numbers: 0, and the state's five numbers are written; or the number of the refusal, and nothing is written.
pub fn sled_open(matrix: &[i64], state: &mut [i64]) -> u32
    ensures { wrote result state.new ≡ open_call_of matrix.now state.old }
{
    open_call::open(matrix, state)
}

// Runs: takes bytes of the input, writes digits to the output and lists divisors until a step stops. Answers why; the state and the three counts, taken, written and listed, are written back.
pub fn sled_run(
    in_digits: usize,
    in_columns: &[i16],
    out_digits: usize,
    out_columns: &[i16],
    state: &mut [i64],
    input: &[u8],
    output: &mut [u8],
    divisors: &mut [u64],
    counts: &mut [usize],
) -> u32
    ensures { after_run result state.new output.new divisors.new counts.new ≡
        run_call_of (lent_system in_digits in_columns.now) (lent_system out_digits out_columns.now) input.now state.old output.old divisors.old counts.old }
{
    run_call::run(
        in_digits,
        in_columns,
        out_digits,
        out_columns,
        state,
        input,
        output,
        divisors,
        counts,
    )
}

// Reads a job file: 0, and the two systems, the matrix and what else is found are written; or the number of the refusal with its section, and nothing is written.
pub fn sled_read(
    file: &[u8],
    in_columns: &mut [i16],
    out_columns: &mut [i16],
    matrix: &mut [i64],
    found: &mut [usize],
) -> u32
    ensures { after_read result in_columns.new out_columns.new matrix.new found.new ≡
        read_call_of file.now in_columns.old out_columns.old matrix.old found.old }
{
    read_call::read(file, in_columns, out_columns, matrix, found)
}

// Writes a job file: 0, and the file stands at the start of the buffer, with how many bytes it has in `written`; or the number of the refusal with its section, and nothing is written.
pub fn sled_write(
    in_digits: usize,
    in_columns: &[i16],
    out_digits: usize,
    out_columns: &[i16],
    matrix: &[i64],
    word: &[u8],
    file: &mut [u8],
    written: &mut [usize],
) -> u32
    ensures { after_write result file.new written.new ≡
        write_call_of (lent_system in_digits in_columns.now) (lent_system out_digits out_columns.now) matrix.now word.now file.old written.old }
{
    write_call::write(
        in_digits,
        in_columns,
        out_digits,
        out_columns,
        matrix,
        word,
        file,
        written,
    )
}

// Opens a session over two words for their sum, x + y: 0, and the state's eleven numbers are written.
pub fn sled_open_sum(state: &mut [i64]) -> u32
    ensures { wrote result state.new ≡ two_opened opened_sum state.old }
{
    two_call::open_sum(state)
}

// For their difference, x − y.
pub fn sled_open_difference(state: &mut [i64]) -> u32
    ensures { wrote result state.new ≡ two_opened opened_difference state.old }
{
    two_call::open_difference(state)
}

// For their product, x·y.
pub fn sled_open_product(state: &mut [i64]) -> u32
    ensures { wrote result state.new ≡ two_opened opened_product state.old }
{
    two_call::open_product(state)
}

// Runs over two words: takes bytes of each and writes digits to the output until a step stops. Answers why; the state and the three counts, taken of x, taken of y and written, are written back.
pub fn sled_run_two(
    in_digits: usize,
    in_columns: &[i16],
    out_digits: usize,
    out_columns: &[i16],
    state: &mut [i64],
    xs: &[u8],
    ys: &[u8],
    output: &mut [u8],
    counts: &mut [usize],
) -> u32
    ensures { after_two result state.new output.new counts.new ≡
        two_call_of (lent_system in_digits in_columns.now) (lent_system out_digits out_columns.now) xs.now ys.now state.old output.old counts.old }
{
    two_call::run(
        in_digits,
        in_columns,
        out_digits,
        out_columns,
        state,
        xs,
        ys,
        output,
        counts,
    )
}
