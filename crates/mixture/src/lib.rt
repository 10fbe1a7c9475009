// Theorems only: two texts joined by a dot, read and placed. See proofs/Claims.antt.
#![tactic(auto)]
