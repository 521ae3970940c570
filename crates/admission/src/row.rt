// One row: refusals 6 to 9.
ghost use Rattle.std.specs.Prelude.{◌≡◌};
ghost use Rattle.admission.specs.Admission.{lowest_ends?, row_verdict};

use refusals::Refusal;

// Whether both ends of an interval are in lowest terms.
fn lowest_ends(w: [i64; 4]) -> bool
    ensures { result ≡ lowest_ends? w }
{
    if cancelling::divisor_of_two(w[0], w[1]) != 1 {
        return false;
    }
    cancelling::divisor_of_two(w[2], w[3]) == 1
}

// "6, 7, 8, 9", in this order.
pub(crate) fn row_verdict(f: [i64; 4], w: [i64; 4]) -> Result<(), Refusal>
    ensures { result ≡ row_verdict f w }
{
    if !ranges::within::<100>(f) {
        return Err(Refusal::OutOfRange);
    }
    if !ranges::within::<100>(w) {
        return Err(Refusal::OutOfRange);
    }
    if plane::determinant(f) <= 0 {
        return Err(Refusal::NotAbove);
    }
    if 0 <= plane::determinant(w) {
        return Err(Refusal::NotBelow);
    }
    if cancelling::divisor(f) != 1 {
        return Err(Refusal::NotLowest);
    }
    if lowest_ends(w) {
        return Ok(());
    }
    Err(Refusal::NotLowest)
}
