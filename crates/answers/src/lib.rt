// Theorems only: specs/ has the range of every number that a public function answers, and proofs/ why each answer lies in it.
#![tactic(auto)]
