// Why a file, a system, a matrix, a state or a buffer is refused: document 01's section "Numbers of refusal", and document 02's 14 and 18.
// Public: `Refusal`, its `number`, and `outcome_number`.
#![tactic(auto)]

ghost use Rattle.std.specs.Prelude.{◌≡◌};
ghost use Rattle.refusals.specs.Numbers.{number_of, outcome_number};

// In the order of their numbers, each in the documents' words.
#[derive(Clone, Copy, Debug, PartialEq, Eq)]
pub enum Refusal {
    // "the file ends before a count or a section is whole"
    CutOff,
    // "bytes follow the word"
    BytesFollow,
    // "a system has 0 or more than 16 digits"
    WrongCount,
    // "the matrix count is not 4"
    MatrixCount,
    // "the word count is above 4096"
    WordCount,
    // "a number is out of its range"
    OutOfRange,
    // "det F ≤ 0"
    NotAbove,
    // "det W ≥ 0"
    NotBelow,
    // "F or an end not in lowest terms"
    NotLowest,
    // "some point is in no closed interval"
    Uncovered,
    // "det M ≤ 0"
    MatrixNotAbove,
    // "the state handed to a run breaks the rules for a state"
    State,
    // "buffer too short" (document 02, T-01)
    BufferShort,
    // "a row not expanding" (document 02, T-04)
    NotExpanding,
}

impl Refusal {
    // Its number.
    pub fn number(self) -> u8
        ensures { result ≡ number_of self }
    {
        match self {
            Refusal::CutOff => 1,
            Refusal::BytesFollow => 2,
            Refusal::WrongCount => 3,
            Refusal::MatrixCount => 4,
            Refusal::WordCount => 5,
            Refusal::OutOfRange => 6,
            Refusal::NotAbove => 7,
            Refusal::NotBelow => 8,
            Refusal::NotLowest => 9,
            Refusal::Uncovered => 10,
            Refusal::MatrixNotAbove => 11,
            Refusal::State => 12,
            Refusal::BufferShort => 14,
            Refusal::NotExpanding => 18,
        }
    }
}

// The number of a judgement: its refusal's, and 0 where nothing is refused.
pub fn outcome_number(outcome: Result<(), Refusal>) -> u8
    ensures { result ≡ outcome_number outcome }
{
    match outcome {
        Ok(_) => 0,
        Err(refusal) => refusal.number(),
    }
}
