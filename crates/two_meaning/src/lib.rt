// Demand 3 for runs over two words (document 02, T-14): theorems only.
#![tactic(auto)]
