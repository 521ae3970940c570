// What a run judges before any step: document 01's section "The step", refusal 12.
#![tactic(auto)]

ghost use Rattle.std.specs.Prelude.{◌≡◌, true};
ghost use Rattle.refusals.specs.Numbers.{outcome_number};
ghost use Rattle.digits.specs.Orders.{viewed};
ghost use Rattle.steps.specs.Step.{setting};
ghost use Rattle.judging.specs.Refusal.{state?, refusal_by, refusal_of};

use digits::SystemView;
use refusals::Refusal;
use states::State;

// Whether a state keeps the rules for a state, with an input system of n digits: what refusal 12 is about. Of any state at all.
fn state_kept(n: usize, s: State) -> bool
    ensures { result ≡ state? n s }
{
    ranges::within::<1000000000>(s.matrix)
        && 0 < plane::determinant(s.matrix)
        && cancelling::divisor(s.matrix) == 1
        && states::held_below(n, s.held)
}

// "A run judges its input system (3, 6 to 10), its output system, then the state (12), before any step", and each system by 18, "directly after 10, also in runs": of the two
// systems.
pub fn systems_refusal(inputs: SystemView, outputs: SystemView) -> Result<(), Refusal>
    ensures { outcome_number result ≡ refusal_by (setting (viewed inputs.entry) (viewed outputs.entry)) true }
{
    admission::admission_of(inputs)?;
    admission::admission_of(outputs)
}

// And then of the state.
pub fn refusal(inputs: SystemView, outputs: SystemView, s: State) -> Result<(), Refusal>
    ensures { outcome_number result ≡ refusal_of (setting (viewed inputs.entry) (viewed outputs.entry)) s }
{
    systems_refusal(inputs, outputs)?;
    if state_kept(inputs.count, s) {
        Ok(())
    } else {
        Err(Refusal::State)
    }
}
