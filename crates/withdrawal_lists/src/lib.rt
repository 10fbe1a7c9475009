// Theorems only: lists of withdrawals on a register, the power going after any step. See proofs/Claims.antt.
#![tactic(auto)]
