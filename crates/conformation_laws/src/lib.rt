// Theorems only: what renumbering the atoms does to the row of sides. See proofs/Claims.antt.
#![tactic(auto)]
