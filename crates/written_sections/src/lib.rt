// The sections of a job file, written: document 02's T-01. Each is written into the front of the buffer that is lent, which is the rest of a larger one, and answers how many bytes it filled. The bytes behind
// them stay. For the crate `job_writing`; nothing here is for plug-ins.
#![tactic(auto)]

ghost use Rattle.std.specs.Prelude.{◌≡◌, ◌+◌, ◌*◌, ◌<◌, ◌≤◌, length};
ghost use Rattle.whole.specs.Written.{written};
ghost use Rattle.digits.specs.Orders.{rows_in, seen};
ghost use Rattle.job_sections.specs.Layout.{two_bytes, numbers_bytes, system_bytes, matrix_bytes, word_bytes};
ghost use Rattle.job_sections.specs.Sections.{Sixteen};
ghost use Rattle.written_sections.specs.Filled.{Filled, number_put, row_of};

use digits::SystemView;

// A count: two bytes, low byte first.
fn put_count(out: &mut [u8], count: usize)
    requires { (2 ≤ length out.old) × (count < 65536) }
    ensures { out.new ≡ written (two_bytes count) out.old }
{
    out[..2].copy_from_slice(&(count as u16).to_le_bytes());
}

// The i-th of some numbers that stand one behind the other: "signed 16-bit numbers, low byte first, two's complement".
fn put_number(out: &mut [u8], i: usize, z: i16)
    requires { 2 * i + 2 ≤ length out.old }
    ensures { out.new ≡ number_put i z out.old }
{
    out[2 * i..2 * i + 2].copy_from_slice(&z.to_le_bytes());
}

// Numbers, one behind the other.
fn put_numbers(out: &mut [u8], numbers: &[i16])
    requires { 2 * length numbers.now ≤ length out.old }
    ensures { out.new ≡ written (numbers_bytes numbers.now) out.old }
{
    for (i, z) in numbers.iter().enumerate() {
        put_number(out, i, *z);
    }
}

// The row of a digit: eight numbers, each out of its column.
fn put_row(out: &mut [u8], a: usize, columns: &[i16; 128])
    requires { (16 ≤ length out.old) × (a < 16) }
    ensures { out.new ≡ written (numbers_bytes (row_of columns.now a)) out.old }
{
    for j in 0..8 {
        put_number(out, j, columns[digits::column_place(8 * a + j)]);
    }
}

// The rows of a system's digits, each into the rest behind the ones before it. What stands in the columns for other digits is not read.
fn put_rows(out: &mut [u8], count: usize, columns: &[i16; 128])
    requires { (16 * count ≤ length out.old) × (count ≤ 16) }
    ensures { out.new ≡ written (numbers_bytes (rows_in (8 * count) columns.now)) out.old }
{
    for a in 0..count {
        put_row(&mut out[16 * a..], a, columns);
    }
}

// A system's section: "count of digits, rows of eight signed 16-bit numbers", straight out of its columns.
pub fn put_system(out: &mut [u8], system: SystemView) -> usize
    requires { (2 + 16 * (seen system).count ≤ length out.old) × ((seen system).count ≤ 16) }
    ensures { Filled (system_bytes (seen system.entry)) out.old out.new result × (result ≡ 2 + 16 * (seen system.entry).count) }
{
    put_count(out, system.count);
    let columns = system.columns;
    put_rows(&mut out[2..], system.count, columns);
    2 + 16 * system.count
}

// A matrix's section: "count 4, then a b c d".
pub fn put_matrix(out: &mut [u8], m: [i64; 4]) -> usize
    requires { (10 ≤ length out.old) × Sixteen m }
    ensures { Filled (matrix_bytes m) out.old out.new result × (result ≡ 10) }
{
    put_count(out, 4);
    put_numbers(
        &mut out[2..],
        &[m[0] as i16, m[1] as i16, m[2] as i16, m[3] as i16],
    );
    10
}

// Bytes over the front of what stands there. (One by one, and no `copy_from_slice`: a copy of any length is the C function `memmove`, and the C library needs none but `memcpy` and `memset`.)
fn put_bytes(out: &mut [u8], bytes: &[u8])
    requires { length bytes.now ≤ length out.old }
    ensures { out.new ≡ written bytes.now out.old }
{
    for (i, byte) in bytes.iter().enumerate() {
        out[i] = *byte;
    }
}

// A word's section: "count 0..4096, one byte a digit".
pub fn put_word(out: &mut [u8], word: &[u8]) -> usize
    requires { (2 + length word.now ≤ length out.old) × (length word.now ≤ 4096) }
    ensures { Filled (word_bytes word.now) out.old out.new result × (result ≡ 2 + length word.now) }
{
    put_count(out, word.len());
    put_bytes(&mut out[2..], word);
    2 + word.len()
}
