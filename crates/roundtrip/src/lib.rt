// Theorems only: reading what was written. See proofs/Claims.antt.
#![tactic(auto)]
