// The sections of a job file: document 01's section "Job file". Each is read from the bytes from its count on. For the crates `jobs` and `job_writing`; nothing here is for plug-ins but `FileRefusal`.
#![tactic(auto)]

ghost use Rattle.std.specs.Prelude.{◌≡◌, ◌+◌, ◌≤◌, length};
ghost use Rattle.refusals.specs.Numbers.{number_of};
ghost use Rattle.sections.specs.Answered.{Answered};
ghost use Rattle.whole.specs.Range.{at};
ghost use Rattle.digits.specs.Orders.{columns_of};
ghost use Rattle.job_sections.specs.InSection.{in_section as in_section_of};
ghost use Rattle.job_sections.specs.Sections.{number_at, numbers_in, system as system_of, matrix as matrixOf};

use digits::System;
use refusals::Refusal;
use sections::Part;

// A file is refused in a section, 0 to 3: "The answer is the number and the section."
#[derive(Clone, Copy, Debug, PartialEq, Eq)]
pub struct FileRefusal {
    pub refusal: Refusal,
    pub section: u8,
}

impl FileRefusal {
    // The number of its refusal.
    pub fn number(self) -> u8
        ensures { result ≡ number_of self.refusal }
    {
        self.refusal.number()
    }
}

// What is answered about a section, with the section beside a refusal.
pub fn in_section<T>(outcome: Result<T, Refusal>, section: u8) -> Result<T, FileRefusal>
    ensures { result ≡ in_section_of outcome section }
{
    outcome.map_err(|refusal| FileRefusal { refusal, section })
}

// A signed number of two bytes, two's complement.
fn number_at(bytes: &[u8], p: usize) -> i16
    requires { p + 2 ≤ length bytes.now }
    ensures { result ≡ number_at bytes.now p }
{
    i16::from_le_bytes([bytes[p], bytes[p + 1]])
}

// The i-th of the numbers of the bytes, and 0 behind them.
fn number_or_0(bytes: &[u8], i: usize) -> i16
    ensures { result ≡ at (numbers_in bytes.now) i }
{
    if i < bytes.len() / 2 {
        return number_at(bytes, 2 * i);
    }
    0
}

// The numbers of the bytes, which stand there row by row, become the columns of a system, with 0 in the places that are left.
fn columns_in(bytes: &[u8]) -> [i16; 128]
    ensures { result ≡ columns_of (numbers_in bytes.now) }
{
    let mut columns = [0i16; 128];
    for p in 0..128 {
        columns[p] = number_or_0(bytes, digits::row_place(p));
    }
    columns
}

// A system's section, of the bytes from its count on.
pub fn system_section(bytes: &[u8]) -> Result<Part<System>, Refusal>
    ensures { Answered system_of bytes.now result }
{
    let count = sections::presence(bytes, 1, 16, Refusal::CutOff, Refusal::WrongCount, 16)?;
    let size = 2 + 16 * count;
    let value = System {
        count,
        columns: columns_in(&bytes[2..size]),
    };
    admission::admission_of(value.view())?;
    Ok(Part { size, value })
}

// A matrix's section, of the bytes from its count on.
pub fn matrix_section(bytes: &[u8]) -> Result<Part<[i64; 4]>, Refusal>
    ensures { Answered matrixOf bytes.now result }
{
    sections::presence(bytes, 4, 4, Refusal::CutOff, Refusal::MatrixCount, 2)?;
    let numbers = &bytes[2..10];
    let value = [
        i64::from(number_at(numbers, 0)),
        i64::from(number_at(numbers, 2)),
        i64::from(number_at(numbers, 4)),
        i64::from(number_at(numbers, 6)),
    ];
    opening::opening_of(value)?;
    Ok(Part { size: 10, value })
}
