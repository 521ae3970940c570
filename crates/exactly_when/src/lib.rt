// When a step does what, when a run ends how, and when it is refused: theorems only (specs/, proofs/). No code.
#![tactic(auto)]
