// Opening a session: document 01's section "The step", refusals 6 and 11. Public: `open`, and `opening_of`, which only judges.
#![tactic(auto)]

ghost use Rattle.std.specs.Prelude.{◌≡◌};
ghost use Rattle.opening.specs.Opening.{started, opening_of, open_of};

use refusals::Refusal;
use states::State;

// "Opening: 6, then 11." Of any four numbers at all.
pub fn opening_of(m: [i64; 4]) -> Result<(), Refusal>
    ensures { result ≡ opening_of m }
{
    if !ranges::within::<1000>(m) {
        return Err(Refusal::OutOfRange);
    }
    if plane::determinant(m) <= 0 {
        return Err(Refusal::MatrixNotAbove);
    }
    Ok(())
}

// "Opening takes M with entries in −1000..1000 and determinant above 0; X is M cancelled, nothing held." Of any four numbers at all.
pub fn open(m: [i64; 4]) -> Result<State, Refusal>
    ensures { started result ≡ open_of m }
{
    opening_of(m)?;
    let cancelled = cancelling::cancel(m);
    Ok(states::opened(cancelled.matrix))
}
