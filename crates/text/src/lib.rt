// Text in a buffer, written forward: each function writes from a place `at` on and hands back the place behind what it wrote. Each asks for
// room and says how much it takes at most.
// The buffer and the place stay two parameters: a struct that held both would hold a lent buffer, and each contract would speak of that struct's two ends in place of the list.
#![tactic(auto)]

ghost use Rattle.std.specs.Prelude.{[], ◌∷◌, ◌++◌, map, ◌+◌, ◌*◌, ◌≤◌, length};
ghost use Rattle.text.specs.Wrote.{Wrote};
ghost use Rattle.text.specs.Number.{decimal, signed_text};
ghost use Rattle.text.specs.Line.{line_of};

// One byte.
fn put(out: &mut [u8], at: usize, byte: u8) -> usize
    requires { at + 1 ≤ length out.old }
    ensures { Wrote out.old at (byte ∷ []) 1 out.new result }
{
    out[at] = byte;
    at + 1
}

// A text that is written out, as b"refused".
pub fn put_text(out: &mut [u8], at: usize, text: &[u8]) -> usize
    requires { at + length text.now ≤ length out.old }
    ensures { Wrote out.old at text.now (length text.now) out.new result }
{
    let end = at + text.len();
    out[at..end].copy_from_slice(text);
    end
}

// A number in decimal: what stands in front of its last digit, then that digit. (No `write!`: it would need a writer that holds the buffer, as above.)
fn put_number(out: &mut [u8], at: usize, n: u64) -> usize
    requires { at + 20 ≤ length out.old }
    ensures { Wrote out.old at (decimal n) 20 out.new result }
{
    let digit = b'0' + (n % 10) as u8;
    if n < 10 {
        return put(out, at, digit);
    }
    let p = put_number(out, at, n / 10);
    put(out, p, digit)
}

// A field of a line: a number, and the byte behind it.
pub fn put_field(out: &mut [u8], at: usize, n: u64, behind: u8) -> usize
    requires { at + 21 ≤ length out.old }
    ensures { Wrote out.old at (decimal n ++ (behind ∷ [])) 21 out.new result }
{
    let p = put_number(out, at, n);
    put(out, p, behind)
}

// The same for a number with a sign.
pub fn put_signed(out: &mut [u8], at: usize, z: i64, behind: u8) -> usize
    requires { at + 22 ≤ length out.old }
    ensures { Wrote out.old at (signed_text z ++ (behind ∷ [])) 22 out.new result }
{
    let n = z.unsigned_abs();
    if z < 0 {
        let p = put(out, at, b'-');
        return put_field(out, p, n, behind);
    }
    put_field(out, at, n, behind)
}

// A line of numbers, each of a byte.
pub fn put_line(out: &mut [u8], at: usize, bytes: &[u8]) -> usize
    requires { at + (21 + 4 * length bytes.now) ≤ length out.old }
    ensures { Wrote out.old at (line_of (map decimal bytes.now)) (1 + 4 * length bytes.now) out.new result }
{
    let Some((last, front)) = bytes.split_last() else {
        return put(out, at, b'\n');
    };
    let mut p = at;
    for byte in front {
        p = put_field(out, p, *byte as u64, b' ');
    }
    put_field(out, p, *last as u64, b'\n')
}
