// Definitions and theorems only: when two molecules are the same compound, drawn differently (02, P4). See specs/Same.antt and proofs/Claims.antt.
#![tactic(auto)]
