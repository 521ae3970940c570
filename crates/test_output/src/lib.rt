// How the test programs print an answer: document 01's number, the counts, a state as its matrix and its held digit or `-`, and every byte of an output and every number of
// a list as it is afterwards, so that what was to stay can be seen to have stayed.
#![tactic(auto)]

ghost use Rattle.std.specs.Prelude.{◌≡◌, ◌<◌, ◌≤◌};

use states::State;
use std::io::{self, Stdout, Write};
use unary::Answer;

// The standard output behind a buffer, which `finish` empties. Where a write fails, nothing more is written, and `finish` says so. (No `BufWriter`: its buffer is on the heap, so that `main` could
// fail before anything is read, and a byte or a number at a time costs these programs two to three times as much.)
#[derive(Drop)]
pub struct Output {
    stdout: Stdout,
    buffer: [u8; 4096],
    used: usize,
    status: io::Result<()>,
    ghost in_bounds: { used ≤ 4096 },
}

impl Output {
    pub fn new(stdout: Stdout) -> Output {
        Output {
            stdout,
            buffer: [0; 4096],
            used: 0,
            status: Ok(()),
        }
    }

    // Whether no write has failed so far.
    pub fn is_good(&self) -> bool {
        self.status.is_ok()
    }

    // Writes what is left in the buffer, and answers whether everything was written.
    pub fn finish(mut self) -> io::Result<()> {
        self.empty();
        let Output {
            stdout: _,
            buffer: _,
            used: _,
            status,
        } = self;
        status
    }

    fn empty(&mut self)
        ensures { self.new.used ≡ 0 }
    {
        if self.status.is_ok() {
            self.status = self.stdout.write_all(&self.buffer[..self.used]);
        }
        self.used = 0;
    }

    fn make_room(&mut self)
        ensures { self.new.used < 4096 }
    {
        if self.used == 4096 {
            self.empty();
        }
    }

    fn put(&mut self, b: u8) {
        self.make_room();
        self.buffer[self.used] = b;
        self.used += 1;
    }

    // A text as it stands.
    pub fn text(&mut self, text: &[u8]) {
        for b in text {
            self.put(*b);
        }
    }

    // A number, without a blank.
    pub fn number<T: Printed + Drop>(&mut self, number: T) {
        number.print(self);
    }
}

// A number that is printed in decimal.
pub trait Printed: Sized {
    fn print(self, output: &mut Output);
}

// What stands in front of its last digit, then that digit.
fn decimal(output: &mut Output, n: u64) {
    let digit = b'0' + (n % 10) as u8;
    if n < 10 {
        output.put(digit);
        return;
    }
    decimal(output, n / 10);
    output.put(digit);
}

impl Printed for u64 {
    fn print(self, output: &mut Output) {
        decimal(output, self);
    }
}

impl Printed for u32 {
    fn print(self, output: &mut Output) {
        decimal(output, u64::from(self));
    }
}

impl Printed for u8 {
    fn print(self, output: &mut Output) {
        decimal(output, u64::from(self));
    }
}

impl Printed for usize {
    fn print(self, output: &mut Output) {
        decimal(output, self as u64);
    }
}

impl Printed for i64 {
    fn print(self, output: &mut Output) {
        if self < 0 {
            output.put(b'-');
        }
        decimal(output, self.unsigned_abs());
    }
}

impl Printed for i16 {
    fn print(self, output: &mut Output) {
        i64::from(self).print(output);
    }
}

// Each value behind a blank.
pub fn each<T: Printed + Copy + Drop>(output: &mut Output, values: &[T]) {
    for value in values {
        output.text(b" ");
        output.number(*value);
    }
}

// The same behind a bar.
pub fn list<T: Printed + Copy + Drop>(output: &mut Output, values: &[T]) {
    output.text(b" |");
    each(output, values);
}

pub fn state(output: &mut Output, s: State) {
    list(output, &s.matrix);
    match s.held {
        None => output.text(b" -"),
        Some(digit) => each(output, &[digit]),
    }
}

// How a run ended and the state that it left.
pub fn pieces(output: &mut Output, a: Answer) {
    each(output, &[states::end_number(a.stop)]);
    state(output, a.state);
}

// The same with how many bytes it took, digits it wrote and divisors it listed.
pub fn answer(output: &mut Output, a: Answer) {
    each(output, &[states::end_number(a.stop)]);
    each(output, &[a.taken.0, a.written.0, a.listed.0]);
    state(output, a.state);
}
