// "A missing digit is loaded before anything else, x before y" (document 02, T-14): the next byte of a word, and what it makes of a step.
ghost use Rattle.std.specs.Prelude.{◌≡◌, List, ℕ, drop};
ghost use Rattle.two_steps.specs.TwoStep.{two_words, load_by};
ghost use Rattle.two_steps.specs.Made.{next_of, word_of, Follows};

use crate::{Kind, Move};
use states::Stop;
use two_states::{Turn, TwoState};

// The byte behind the i that are taken, where the input system has so many digits: or why the run stops, none is left, or it is no digit.
pub fn next_byte(count: usize, word: &[u8], i: usize) -> Result<u8, Stop>
    ensures { result ≡ next_of count (drop i word.now) }
{
    let b = word.get(i).copied().ok_or(Stop::InputUsed)?;
    if (b as usize) < count {
        return Ok(b);
    }
    Err(Stop::NotADigit)
}

// The missing digit of a word, by its next byte.
pub fn load(s: TwoState, word: Turn, next: Result<u8, Stop>) -> Move
    ensures { (count : ℕ) (xs ys : List ℕ) (room : ℕ) → next ≡ next_of count (word_of word xs ys) → Follows (load_by word count s) s (two_words xs ys room) result }
{
    match next {
        Ok(b) => Move {
            kind: Kind::Load(word, b),
            state: two_states::loaded(s, word, b),
        },
        Err(stop) => Move {
            kind: Kind::Halt(stop),
            state: s,
        },
    }
}
