// Which digit systems are admitted: document 01's section "A digit system" and its refusals 3 and 6 to 10, and document 02's 18.
// Public: `admit`, and `admission_of` of a system that is lent.
#![tactic(auto)]

ghost use Rattle.std.specs.Prelude.{◌≡◌, ◌≤◌};
ghost use Rattle.digits.specs.Orders.{system_of, seen, viewed};
ghost use Rattle.admission.specs.Admission.{rows_verdict, admission_of};

use digits::{System, SystemView};
use refusals::Refusal;

mod row; // row.rt: refusals 6 to 9

// "System: row by row 6, 7, 8, 9; then 10"; "18, a row not expanding, directly after 10".
fn rows_verdict(system: SystemView) -> Result<(), Refusal>
    requires { (seen system).count ≤ 16 }
    ensures { result ≡ rows_verdict (viewed system.entry) }
{
    for a in 0..system.count {
        row::row_verdict(system.transformation(a), system.interval(a))?;
    }
    if !cover::covered(system) {
        return Err(Refusal::Uncovered);
    }
    if !expanding::all_expand(system) {
        return Err(Refusal::NotExpanding);
    }
    Ok(())
}

// The judgement of a system: of as many digits as its count says, unless that is refused.
pub fn admission_of(system: SystemView) -> Result<(), Refusal>
    ensures { result ≡ admission_of (viewed system.entry) }
{
    if system.count == 0 {
        return Err(Refusal::WrongCount);
    }
    if 16 < system.count {
        return Err(Refusal::WrongCount);
    }
    rows_verdict(system)
}

// Whether a system is admitted, and if not, which rule it breaks first. Of any struct at all.
pub fn admit(s: System) -> Result<(), Refusal>
    ensures { result ≡ admission_of (system_of s) }
{
    admission_of(s.view())
}
