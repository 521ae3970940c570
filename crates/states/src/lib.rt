// What a session keeps between two calls, and why a run stops: document 01's section "The step", ends 0, 20, 21 and 22, and document 02's end 15.
// Public: `State`, `Stop` and `end_number`. The rest is for our crates above.
#![tactic(auto)]

ghost use Rattle.std.specs.Prelude.{◌≡◌};
ghost use Rattle.states.specs.State.{end_number, refused?, held_digit?, held_count, opened as opened_of, loaded as loaded_of, given as given_of};

// What a session keeps between two calls: a matrix, and the digit that was taken and is not yet absorbed, or none. Only the three functions below build one, and the C boundary.
#[derive(Clone, Copy, Debug, PartialEq, Eq)]
pub struct State {
    pub matrix: [i64; 4],
    pub held: Option<u8>,
}

// "X is M cancelled, nothing held": of the cancelled matrix. Also a new X "and nothing is held", where a digit is absorbed.
pub fn opened(matrix: [i64; 4]) -> State
    ensures { result ≡ opened_of matrix }
{
    State { matrix, held: None }
}

// "take the byte as the held digit. X stays."
pub fn loaded(s: State, digit: u8) -> State
    ensures { result ≡ loaded_of s digit }
{
    State {
        held: Some(digit),
        ..s
    }
}

// A new X, where a digit is given out.
pub fn given(s: State, matrix: [i64; 4]) -> State
    ensures { result ≡ given_of s matrix }
{
    State { matrix, ..s }
}

// Whether the held digit, if there is one, is one of n.
pub fn held_below(n: usize, held: Option<u8>) -> bool
    ensures { result ≡ held_digit? n held }
{
    held.is_none_or(|d| (d as usize) < n)
}

// How many digits are held: none or one.
pub fn held_count(held: Option<u8>) -> usize
    ensures { result ≡ held_count held }
{
    held.is_some() as usize
}

// Why a run stopped; `end_number` gives the number.
#[derive(Clone, Copy, Debug, PartialEq, Eq)]
pub enum Stop {
    InputUsed,
    ListFull,
    NoRoom,
    NotADigit,
    RangeLeft,
    Refused(u8),
}

// The number, of document 01 or 02, for the way in which a run stopped.
pub fn end_number(stop: Stop) -> u8
    ensures { result ≡ end_number stop }
{
    match stop {
        Stop::InputUsed => 0,
        Stop::ListFull => 15,
        Stop::NoRoom => 20,
        Stop::NotADigit => 21,
        Stop::RangeLeft => 22,
        Stop::Refused(number) => number,
    }
}

pub fn refused(stop: Stop) -> bool
    ensures { result ≡ refused? stop }
{
    matches!(stop, Stop::Refused(_))
}
