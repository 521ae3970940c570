// The unary algorithm: document 01's section "The step". `run` (opening: crates/opening; what is judged before any step: crates/judging; one step: crates/one_step, over the lines of crates/steps).
// Public: `run` with the type of its answer. The rest is what our other crates call.
#![tactic(auto)]

ghost use Rattle.std.specs.Prelude.{◌≡◌, ◌+◌, ◌-◌, ◌<◌, ◌≤◌};
ghost use Rattle.digits.specs.Orders.{system_of, viewed};
ghost use Rattle.states.specs.State.{held_count};
ghost use Rattle.steps.specs.Step.{setting};
ghost use Rattle.steps.specs.Made.{Ready, Recognised};
ghost use Rattle.unary.specs.Run.{answered, ran, steps_of, run_of};

use digits::{System, SystemView};
use states::{State, Stop};
use steps::Kind;

// The counts, kept apart (document 01: "The counts, kept apart"), so each has a type of its own: the source's input pointer and its output pointer, and how many divisors are listed.
#[derive(Clone, Copy, Debug, PartialEq, Eq)]
pub struct Taken(pub usize);

#[derive(Clone, Copy, Debug, PartialEq, Eq)]
pub struct Written(pub usize);

#[derive(Clone, Copy, Debug, PartialEq, Eq)]
pub struct Listed(pub usize);

#[derive(Clone, Copy, Debug, PartialEq, Eq)]
pub struct Answer {
    pub stop: Stop,
    pub taken: Taken,
    pub written: Written,
    pub listed: Listed,
    pub state: State,
}

// The answer behind i bytes taken and o digits written. How many divisors are listed follows from these two: one for each digit written and one for each absorbed, which was
// taken, or was held at the start (then k is 0, and else 1), and is not held now.
fn ended(stop: Stop, i: usize, o: usize, k: usize, state: State) -> Answer
    requires { (k ≤ i + o + 1 - held_count state.held) × (i + o + 1 < 18446744073709551616) }
    ensures { result ≡ answered stop i o (i + o + 1 - held_count state.held - k) state }
{
    Answer {
        stop,
        taken: Taken(i),
        written: Written(o),
        listed: Listed(i + o + 1 - states::held_count(state.held) - k),
        state,
    }
}

// The steps of a run whose systems and state are judged. A digit is written, and a divisor listed, only after the state is known to fit. The loop keeps no third count: where a
// digit is held, i + o - k divisors are listed (see `ended`); where none is, a step asks for no place. Where r is true both systems are R, and where b is the output system is B. (k is found here and not by `held_count`, for speed: docs/DECISIONS.md.)
fn run_judged(
    r: bool,
    b: bool,
    inputs: SystemView,
    outputs: SystemView,
    s: State,
    input: &[u8],
    output: &mut [u8],
    divisors: &mut [u64],
) -> Answer
    requires { (Ready (setting (viewed inputs) (viewed outputs)) s) × (Recognised r b (setting (viewed inputs) (viewed outputs))) }
    ensures { ran result output.new divisors.new ≡ steps_of (setting (viewed inputs.entry) (viewed outputs.entry)) s input.now output.old divisors.old }
{
    let held = s.held;
    let k: usize = match held {
        None => 1,
        Some(_) => 0,
    };
    let mut st = s;
    let mut i: usize = 0;
    let mut o: usize = 0;
    loop {
        let m = one_step::step(
            r,
            b,
            inputs,
            outputs,
            st,
            input,
            i,
            o,
            output.len(),
            i + o,
            divisors.len() + k,
        );
        let kind = m.kind;
        let t = m.state;
        st = t;
        match kind {
            Kind::Halt(stop) => {
                return ended(stop, i, o, k, t);
            }
            Kind::Load(_) => {
                i += 1;
            }
            Kind::Give(d, g) => {
                divisors[i + o - k] = g;
                output[o] = d;
                o += 1;
            }
            Kind::Absorb(g) => {
                divisors[i + o - k] = g;
            }
        }
    }
}

// A run over systems that are lent. The systems and the state are judged first.
pub fn run_lent(
    inputs: SystemView,
    outputs: SystemView,
    state: State,
    input: &[u8],
    output: &mut [u8],
    divisors: &mut [u64],
) -> Answer
    ensures { ran result output.new divisors.new ≡ run_of (viewed inputs.entry) (viewed outputs.entry) state input.now output.old divisors.old }
{
    match judging::refusal(inputs, outputs, state) {
        Err(refusal) => Answer {
            stop: Stop::Refused(refusal.number()),
            taken: Taken(0),
            written: Written(0),
            listed: Listed(0),
            state,
        },
        Ok(_) => {
            let r = built_in::both_r(input.len(), inputs, outputs);
            let b = built_in::is_b(input.len(), outputs);
            run_judged(r, b, inputs, outputs, state, input, output, divisors)
        }
    }
}

// A run: bytes of the input are taken, digits are written to the output and divisors are listed until a step stops. Of any two systems, any state, any input, any output and
// any list at all.
pub fn run(
    inputs: System,
    outputs: System,
    state: State,
    input: &[u8],
    output: &mut [u8],
    divisors: &mut [u64],
) -> Answer
    ensures { ran result output.new divisors.new ≡ run_of (system_of inputs) (system_of outputs) state input.now output.old divisors.old }
{
    run_lent(
        inputs.view(),
        outputs.view(),
        state,
        input,
        output,
        divisors,
    )
}
