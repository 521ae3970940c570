// Theorems only: specs/ has what is said of a session, and proofs/ why it holds.
#![tactic(auto)]
