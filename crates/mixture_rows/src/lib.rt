// Theorems only: the matchings of two molecules that stand side by side in one pair of tables. See proofs/Claims.antt.
#![tactic(auto)]
