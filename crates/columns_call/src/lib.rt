// A system turned from rows, as a person writes it, into columns, as the library takes it, and back, over numbers that a plug-in lends. `sled_columns` and `sled_rows` (crate `plugin`) are this for C.
#![tactic(auto)]

ghost use Rattle.std.specs.Prelude.{◌≡◌, true};
ghost use Rattle.refusals.specs.Numbers.{outcome_number};
ghost use Rattle.numbers.specs.Numbers.{lent_system, wrote};
ghost use Rattle.columns_call.specs.ColumnsCall.{turn_number, columns_call_of, rows_call};

use numbers::WRONG_LENGTH;
use refusals::Refusal;

// "A system has 1 to 16 digits."
fn counted(digits: usize) -> Result<(), Refusal>
    ensures { outcome_number result ≡ turn_number true digits }
{
    match digits {
        1..=16 => Ok(()),
        _ => Err(Refusal::WrongCount),
    }
}

// Rows into columns: 0, and all 128 numbers are written; or the number of the refusal, and nothing is written.
pub fn columns(rows: &[i16], columns: &mut [i16]) -> u32
    ensures { wrote result columns.new ≡ columns_call_of rows.now columns.old }
{
    if rows.len() % 8 != 0 || columns.len() != 128 {
        return WRONG_LENGTH;
    }
    if let Err(refusal) = counted(rows.len() / 8) {
        return u32::from(refusal.number());
    }
    digits::in_columns(rows, columns);
    0
}

// Columns into rows: 0, and the rows of as many digits are written; or the number of the refusal, and nothing is written. (That there is room for them is asked by division: 8·digits
// need not fit a word.)
pub fn rows(digits: usize, columns: &[i16], rows: &mut [i16]) -> u32
    ensures { wrote result rows.new ≡ rows_call (lent_system digits columns.now) rows.old }
{
    if columns.len() != 128 || rows.len() % 8 != 0 || rows.len() / 8 != digits {
        return WRONG_LENGTH;
    }
    if let Err(refusal) = counted(digits) {
        return u32::from(refusal.number());
    }
    digits::in_rows(columns, rows);
    0
}
