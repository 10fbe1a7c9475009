// Theorems only: whether a matching exists survives a renumbering. See proofs/Claims.antt.
#![tactic(auto)]
