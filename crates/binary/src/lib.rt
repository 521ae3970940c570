// Runs over two words: their sum, difference and product (document 02, T-14). `run` (opening and the state: crates/two_states; one step: crates/two_steps).
// Public: `run` with the type of its answer. The rest is what our other crates call.
#![tactic(auto)]

ghost use Rattle.std.specs.Prelude.{◌≡◌};
ghost use Rattle.refusals.specs.Numbers.{outcome_number};
ghost use Rattle.digits.specs.Orders.{system_of, viewed};
ghost use Rattle.steps.specs.Step.{setting};
ghost use Rattle.two_steps.specs.Made.{Ready};
ghost use Rattle.binary.specs.TwoRun.{two_refusal, two_ran, two_steps_of, two_run};

use digits::{System, SystemView};
use refusals::Refusal;
use states::Stop;
use two_states::{Turn, TwoState};
use two_steps::Kind;

// The counts, kept apart: bytes taken of x, bytes taken of y, digits written. (Three types and not three numbers: document 02 keeps them apart, so that none is taken for another.)
#[derive(Clone, Copy, Debug, PartialEq, Eq)]
pub struct TakenX(pub usize);

#[derive(Clone, Copy, Debug, PartialEq, Eq)]
pub struct TakenY(pub usize);

#[derive(Clone, Copy, Debug, PartialEq, Eq)]
pub struct Written(pub usize);

#[derive(Clone, Copy, Debug, PartialEq, Eq)]
pub struct TwoAnswer {
    pub stop: Stop,
    pub x: TakenX,
    pub y: TakenY,
    pub written: Written,
    pub state: TwoState,
}

// The input system is judged first, which both words are in, then the output system, then the state (12).
fn refusal(inputs: SystemView, outputs: SystemView, s: TwoState) -> Result<(), Refusal>
    ensures { outcome_number result ≡ two_refusal (setting (viewed inputs.entry) (viewed outputs.entry)) s }
{
    judging::systems_refusal(inputs, outputs)?;
    if two_states::state_kept(inputs.count, s) {
        Ok(())
    } else {
        Err(Refusal::State)
    }
}

// The steps of a run whose systems and state are judged. A digit is written only after the state is known to fit.
fn run_judged(
    inputs: SystemView,
    outputs: SystemView,
    s: TwoState,
    xs: &[u8],
    ys: &[u8],
    output: &mut [u8],
) -> TwoAnswer
    requires { Ready (setting (viewed inputs) (viewed outputs)) s }
    ensures { two_ran result output.new ≡
        two_steps_of (setting (viewed inputs.entry) (viewed outputs.entry)) s xs.now ys.now output.old }
{
    let mut st = s;
    let mut i: usize = 0;
    let mut j: usize = 0;
    let mut o: usize = 0;
    loop {
        let m = two_steps::step(inputs, outputs, st, xs, i, ys, j, o, output.len());
        st = m.state;
        match m.kind {
            Kind::Halt(stop) => {
                return TwoAnswer {
                    stop,
                    x: TakenX(i),
                    y: TakenY(j),
                    written: Written(o),
                    state: st,
                };
            }
            Kind::Load(Turn::OfX, _) => {
                i += 1;
            }
            Kind::Load(Turn::OfY, _) => {
                j += 1;
            }
            Kind::Give(c) => {
                output[o] = c;
                o += 1;
            }
            Kind::Absorb => {}
        }
    }
}

// A run over systems that are lent. The systems and the state are judged first.
pub fn run_lent(
    inputs: SystemView,
    outputs: SystemView,
    state: TwoState,
    xs: &[u8],
    ys: &[u8],
    output: &mut [u8],
) -> TwoAnswer
    ensures { two_ran result output.new ≡
        two_run (viewed inputs.entry) (viewed outputs.entry) state xs.now ys.now output.old }
{
    match refusal(inputs, outputs, state) {
        Err(refusal) => TwoAnswer {
            stop: Stop::Refused(refusal.number()),
            x: TakenX(0),
            y: TakenY(0),
            written: Written(0),
            state,
        },
        Ok(_) => run_judged(inputs, outputs, state, xs, ys, output),
    }
}

// A run: bytes of the two words are taken and digits are written to the output until a step stops. Of any two systems, any state, any words and any output at all.
pub fn run(
    inputs: System,
    outputs: System,
    state: TwoState,
    xs: &[u8],
    ys: &[u8],
    output: &mut [u8],
) -> TwoAnswer
    ensures { two_ran result output.new ≡ two_run (system_of inputs) (system_of outputs) state xs.now ys.now output.old }
{
    run_lent(inputs.view(), outputs.view(), state, xs, ys, output)
}
