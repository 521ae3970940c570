// How a plug-in writes a system and a state: as plain numbers in slices of its own. Crates `open_call`, `run_call` and `read_call` have the calls, `plugin` the C functions.
// A system is its count of digits and its 128 numbers, in columns; a state is five numbers, the matrix and the held digit or −1.
#![tactic(auto)]

ghost use Rattle.std.specs.Prelude.{◌≡◌, ◌++◌, ◌≤◌, length, drop, SomeIff};
ghost use Rattle.std.specs.Option.{option_map};
ghost use Rattle.plane.specs.Scale.{entries};
ghost use Rattle.digits.specs.Orders.{Columns, lent_system, seen};
ghost use Rattle.numbers.specs.Numbers.{held_number, state_numbers, held_from, state_from, wrote, handed_out};

use digits::{System, SystemView};
use states::State;

// The number that refuses a slice of the wrong length.
pub const WRONG_LENGTH: u32 = 40;

// ---- a system

// The system that is lent as its count of digits and its columns, which stay where they are; or none where these are not 128 numbers.
pub fn system_from(digits: usize, columns: &[i16]) -> Option<SystemView<'_>>
    ensures { SomeIff (option_map seen result) (length columns.now ≡ 128) (lent_system digits columns.now) }
{
    let columns = <&[i16; 128]>::try_from(columns).ok()?;
    Some(SystemView {
        count: digits,
        columns,
    })
}

// The numbers of a system.
pub fn put_columns(s: System, to: &mut [i16])
    requires { Columns to.old }
    ensures { to.new ≡ s.columns }
{
    to.copy_from_slice(&s.columns);
}

// The numbers of a system, into a slice of exactly as many.
pub fn hand_out(s: System, columns: &mut [i16]) -> u32
    ensures { wrote result columns.new ≡ handed_out s columns.old }
{
    if columns.len() != 128 {
        return WRONG_LENGTH;
    }
    put_columns(s, columns);
    0
}

// ---- a state

// The matrix that the first four numbers of a slice stand for.
pub fn matrix_from(numbers: &[i64]) -> [i64; 4]
    requires { 4 ≤ length numbers.now }
    ensures { result ≡ entries numbers.now }
{
    [numbers[0], numbers[1], numbers[2], numbers[3]]
}

// What the fifth number of a state stands for.
pub fn held_from(z: i64) -> Option<u8>
    ensures { result ≡ held_from z }
{
    if z == -1 {
        return None;
    }
    Some(u8::try_from(z).unwrap_or(255))
}

// The state that five numbers stand for.
pub fn state_from(five: &[i64]) -> State
    requires { length five.now ≡ 5 }
    ensures { result ≡ state_from five.now }
{
    State {
        matrix: matrix_from(five),
        held: held_from(five[4]),
    }
}

// The four entries of a matrix, over the first four numbers of a slice.
pub fn put_matrix(m: [i64; 4], to: &mut [i64])
    requires { 4 ≤ length to.old }
    ensures { to.new ≡ entries m ++ drop 4 to.old }
{
    to[..4].copy_from_slice(&m);
}

// The number of a held digit, or −1.
pub fn held_number(h: Option<u8>) -> i64
    ensures { result ≡ held_number h }
{
    h.map_or(-1, i64::from)
}

// A state written as five numbers.
pub fn put_state(s: State, five: &mut [i64])
    requires { length five.old ≡ 5 }
    ensures { five.new ≡ state_numbers s }
{
    put_matrix(s.matrix, five);
    five[4] = held_number(s.held);
}
