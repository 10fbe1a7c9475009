// Theorems only: when kekulizing gives 20. See proofs/Claims.antt.
#![tactic(auto)]
