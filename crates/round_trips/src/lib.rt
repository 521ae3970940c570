// What is written reads back, what reads is written again, and each refusal exactly when: document 02's T-01, as theorems over `jobs::read` and `jobs::write`. No code.
#![tactic(auto)]
