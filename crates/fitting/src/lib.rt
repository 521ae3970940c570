// The digit that may be given out: the first half of the step's line 4, a search. For the crate `one_step`; nothing here is for plug-ins.
#![tactic(auto)]

ghost use Rattle.std.specs.Prelude.{◌≡◌, ◌≤◌};
ghost use Rattle.whole.specs.Range.{Within};
ghost use Rattle.plane.specs.Plane.{Interval};
ghost use Rattle.digits.specs.Orders.{seen, viewed};
ghost use Rattle.fitting.specs.FirstFit.{Searchable, fitting_of, fitting};

use digits::SystemView;

// Line 4, its first half: the smallest output digit whose interval includes the image.
pub fn fitting_digit(outputs: SystemView, image: [i64; 4]) -> Option<u8>
    requires { ((seen outputs).count ≤ 16) × (Searchable (viewed outputs)) × (Within 200000000000 image) × (Interval image) }
    ensures { result ≡ fitting (fitting_of (viewed outputs.entry) image) }
{
    for b in 0..outputs.count {
        if inclusion::included(image, outputs.interval(b)) {
            return Some(b as u8);
        }
    }
    None
}
