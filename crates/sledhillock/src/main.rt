// The program: document 01's section "The program". It reads a job on standard input and prints its answer. All but the reading and the writing is in proved functions.
//
// It reads no more than 4,625 bytes, so that an endless input gets its answer too. They settle every file (the theorem `settled`, crates/jobs/proofs/ReadsExactly.antt): the
// largest that reads has 4,624 bytes, and of a longer one no more is looked at than that a byte follows the word.
#![tactic(auto)]

ghost use Rattle.std.specs.Prelude.{◌≡◌, ◌≤◌, length};

use std::io::{self, Read, Stdin, Write};

// Reads until the buffer is full, the input has ended or a read has failed. Answers how many bytes came, and that failure. (By hand: behind an `Err` of `read_exact` nothing says how many
// bytes came, and these are answered.)
fn read_full(stdin: &mut Stdin, buffer: &mut [u8]) -> (usize, io::Result<()>)
    ensures length { length buffer.new ≡ length buffer.old }
    ensures within { result.0 ≤ length buffer.old }
{
    let mut done = 0;
    while done < buffer.len() {
        match stdin.read(&mut buffer[done..]) {
            Ok(0) => break,
            Ok(n) => done += n,
            Err(e) => return (done, Err(e)),
        }
    }
    (done, Ok(()))
}

// A failed read is answered as the end of the input is, and handed out behind the answer.
fn main(rt: HostRuntime) -> io::Result<()> {
    let mut file = [0u8; 4625];
    let (n, read) = read_full(&mut rt.stdin(), &mut file);
    let mut digits = [0u8; 8192];
    let mut out = [0u8; 40000];
    let length = printed::respond(&file[..n], &mut digits, &mut out);
    rt.stdout().write_all(&out[..length]).and(read)
}
