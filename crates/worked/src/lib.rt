// Theorems only: specs/ has document 01's worked examples as one table, and proofs/ why each row holds.
#![tactic(auto)]
