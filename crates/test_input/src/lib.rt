// How the test programs read their cases, part by part, from the standard input. Numbers have their low byte first. Nothing here fails: behind the end of the input each byte is 255.
#![tactic(auto)]

ghost use Rattle.std.specs.Prelude.{◌≤◌, length};

use digits::System;
use states::State;
use std::io::{self, Read, Stdin};

// The standard input behind a buffer. Where a read fails, nothing more is read, as where the input has ended, and `finish` says so. (No `BufReader`: its buffer is on the heap, so that `main` could fail
// before anything is read, and a byte at a time costs these programs up to twice as much.)
#[derive(Drop)]
pub struct Input {
    stdin: Stdin,
    buffer: [u8; 4096],
    next: usize,
    end: usize,
    status: io::Result<()>,
    ghost ordered: { next ≤ end },
    ghost in_bounds: { end ≤ 4096 },
}

impl Input {
    pub fn new(stdin: Stdin) -> Input {
        Input {
            stdin,
            buffer: [0; 4096],
            next: 0,
            end: 0,
            status: Ok(()),
        }
    }

    // Whether no read has failed.
    pub fn finish(self) -> io::Result<()> {
        let Input {
            stdin: _,
            buffer: _,
            next: _,
            end: _,
            status,
        } = self;
        status
    }

    // (Out of line, so that the code for a byte that is there is short.)
    #[inline(never)]
    fn refill(&mut self) {
        self.next = 0;
        self.end = 0;
        if self.status.is_err() {
            return;
        }
        match self.stdin.read(&mut self.buffer) {
            Ok(n) => self.end = n,
            Err(e) => self.status = Err(e),
        }
    }

    // The next byte, and none where the input has ended.
    fn next(&mut self) -> Option<u8> {
        if self.next == self.end {
            self.refill();
        }
        if self.next == self.end {
            return None;
        }
        let b = self.buffer[self.next];
        self.next += 1;
        Some(b)
    }

    fn bytes<const N: usize>(&mut self) -> [u8; N] {
        let mut bytes = [255; N];
        for byte in &mut bytes {
            *byte = self.next().unwrap_or(255);
        }
        bytes
    }
}

// What is read as a number of so many bytes, with a sign or without one.
pub trait Number: Sized {
    fn read(input: &mut Input) -> Self;
}

impl Number for u8 {
    fn read(input: &mut Input) -> u8 {
        u8::from_le_bytes(input.bytes())
    }
}

impl Number for u16 {
    fn read(input: &mut Input) -> u16 {
        u16::from_le_bytes(input.bytes())
    }
}

impl Number for u32 {
    fn read(input: &mut Input) -> u32 {
        u32::from_le_bytes(input.bytes())
    }
}

impl Number for u64 {
    fn read(input: &mut Input) -> u64 {
        u64::from_le_bytes(input.bytes())
    }
}

impl Number for i16 {
    fn read(input: &mut Input) -> i16 {
        i16::from_le_bytes(input.bytes())
    }
}

impl Number for i64 {
    fn read(input: &mut Input) -> i64 {
        i64::from_le_bytes(input.bytes())
    }
}

// As many numbers as the buffer has.
pub fn fill<T: Number + Drop>(input: &mut Input, buffer: &mut [T]) {
    for number in buffer {
        *number = T::read(input);
    }
}

// So many numbers, at the start of the buffer; none where it is too short for them.
pub fn numbers<'a, T: Number + Drop>(
    input: &mut Input,
    buffer: &'a mut [T],
    n: usize,
) -> &'a mut [T]
    ensures { length result.now ≤ length buffer.old }
{
    let n = if buffer.len() < n { 0 } else { n };
    let front = &mut buffer[..n];
    fill(input, front);
    front
}

// So many bytes, as far as the input goes; none where the buffer is too short for them.
pub fn bytes<'a>(input: &mut Input, buffer: &'a mut [u8], n: usize) -> &'a mut [u8]
    ensures { length result.now ≤ length buffer.old }
{
    if buffer.len() < n {
        return &mut buffer[..0];
    }
    for p in 0..n {
        match input.next() {
            Some(byte) => buffer[p] = byte,
            None => return &mut buffer[..p],
        }
    }
    &mut buffer[..n]
}

// As many bytes as a byte before them says.
pub fn word<'a>(input: &mut Input, buffer: &'a mut [u8]) -> &'a mut [u8]
    ensures { length result.now ≤ length buffer.old }
{
    let n = u8::read(input);
    bytes(input, buffer, n as usize)
}

// As many bytes as two bytes before them say.
pub fn long_word<'a>(input: &mut Input, buffer: &'a mut [u8]) -> &'a mut [u8]
    ensures { length result.now ≤ length buffer.old }
{
    let n = u16::read(input);
    bytes(input, buffer, n as usize)
}

pub fn matrix(input: &mut Input) -> [i64; 4] {
    let mut matrix = [0; 4];
    fill(input, &mut matrix);
    matrix
}

// A built-in system by its letter, or any other by its count and its 128 numbers, in columns.
pub fn system(input: &mut Input) -> System {
    match u8::read(input) {
        b'R' => digits::system_r(),
        b'B' => digits::system_b(),
        b'D' => digits::system_d(),
        _ => {
            let count = u64::read(input) as usize;
            let mut columns = [0; 128];
            fill(input, &mut columns);
            System { count, columns }
        }
    }
}

// A state: the one that the case before left, one that is opened, or one that is handed in, with or without a held digit.
pub fn state(input: &mut Input, before: State) -> State {
    match u8::read(input) {
        b'b' => before,
        b'o' => opening::open(matrix(input)).unwrap_or(states::opened([0; 4])),
        b'h' => {
            let s = states::opened(matrix(input));
            states::loaded(s, u8::read(input))
        }
        _ => states::opened(matrix(input)),
    }
}
