// What the program prints: document 01's section "The program". `respond` answers a job file with its text; the programs call it and lend it large enough buffers, plug-ins
// do not.
#![tactic(auto)]

ghost use Rattle.std.specs.Prelude.{◌≤◌, length};
ghost use Rattle.printed.specs.Responds.{Responds};

// Answers a job file: reads it, opens its matrix, runs its word into `digits`, and writes what the program prints from the front of `out` on; hands back how many bytes
// that is.
pub fn respond(file: &[u8], digits: &mut [u8], out: &mut [u8]) -> usize
    requires { (length digits.old ≤ 8192) × (40000 ≤ length out.old) }
    ensures { Responds file.now digits.old digits.new out.old out.new result }
{
    let job = match jobs::read(file) {
        Ok(job) => job,
        Err(refused) => return lines::put_refusal(out, refused.number(), refused.section),
    };
    // The matrix of a job that reads opens.
    let state = opening::open(job.matrix).unwrap();
    let start = job.word.start;
    let end = start + job.word.length;
    // It can't fill: taken + written numbers at most, 4096 + 8192.
    let mut divisors = [0u64; 12288];
    let answer = unary::run(
        job.input,
        job.output,
        state,
        &file[start..end],
        digits,
        &mut divisors,
    );
    lines::put_answer(out, answer, digits)
}
