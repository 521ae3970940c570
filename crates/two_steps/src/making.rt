// The eight numbers that a step makes where both digits are held, before they are cancelled: by the digit that is given out, or by the one that is absorbed.
ghost use Rattle.std.specs.Prelude.{◌≡◌, pos, nat_abs, ◌<ℤ◌};
ghost use Rattle.whole.specs.Range.{Within};
ghost use Rattle.plane.specs.Plane.{determinant_of};
ghost use Rattle.digits.specs.Orders.{viewed};
ghost use Rattle.steps.specs.Step.{setting};
ghost use Rattle.fitting.specs.FirstFit.{fits};
ghost use Rattle.two_steps.specs.Made.{given_product, absorbed_product, product_by, WorksWith, WorksWhere};

use crate::Product;
use digits::SystemView;
use two_states::{Turn, TwoState};

// The determinant of a digit's transformation, which is above 0.
fn determinant_of(f: [i64; 4]) -> u64
    requires { (Within 100 f) × (pos 0 <ℤ determinant_of f) }
    ensures { result ≡ nat_abs (determinant_of f) }
{
    plane::determinant(f) as u64
}

// The digit c is given out: pseudoinverse(G_c)·X.
fn given_product(outputs: SystemView, s: TwoState, c: u8) -> Product
    requires { WorksWith (viewed outputs) s c }
    ensures { result ≡ given_product (viewed outputs.entry) s c }
{
    let g = outputs.transformation(c as usize);
    Product {
        form: bilinear::times(plane::pseudoinverse(g), s.form),
        determinant: determinant_of(g),
    }
}

// The digit whose turn it is, a of x or b of y, is absorbed.
fn absorbed_product(inputs: SystemView, s: TwoState, a: u8, b: u8) -> Product
    requires { (WorksWith (viewed inputs) s a) × (WorksWith (viewed inputs) s b) }
    ensures { result ≡ absorbed_product (viewed inputs.entry) s a b s.turn }
{
    match s.turn {
        Turn::OfX => {
            let f = inputs.transformation(a as usize);
            Product {
                form: bilinear::into_x(s.form, f),
                determinant: determinant_of(f),
            }
        }
        Turn::OfY => {
            let f = inputs.transformation(b as usize);
            Product {
                form: bilinear::into_y(s.form, f),
                determinant: determinant_of(f),
            }
        }
    }
}

// Where no digit was found, the one whose turn it is is absorbed, and one that was found is given out.
pub fn step_product(
    inputs: SystemView,
    outputs: SystemView,
    s: TwoState,
    a: u8,
    b: u8,
    fit: Option<u8>,
) -> Product
    requires { (WorksWith (viewed inputs) s a) × (WorksWith (viewed inputs) s b) × (WorksWhere (viewed outputs) s (fits fit)) }
    ensures { result ≡ product_by (setting (viewed inputs.entry) (viewed outputs.entry)) s a b (fits fit) }
{
    match fit {
        None => absorbed_product(inputs, s, a, b),
        Some(c) => given_product(outputs, s, c),
    }
}
