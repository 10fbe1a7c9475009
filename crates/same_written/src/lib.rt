// Theorems only: what was written and read back is the same compound (01, demand 2, with 02, P4). See proofs/Claims.antt.
#![tactic(auto)]
