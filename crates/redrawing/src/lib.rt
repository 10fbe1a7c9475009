// Definitions and theorems only: when two molecules are redrawings of one another. See specs/Redrawn.antt and proofs/Claims.antt.
#![tactic(auto)]
