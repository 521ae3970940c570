// Theorems only: specs/ has what a session by the C functions is, and proofs/ why demand 3 holds of it.
#![tactic(auto)]
