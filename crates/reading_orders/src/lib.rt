// Theorems only: the neighbours of an atom in the text's order and in the stored one, an odd or an even number of swaps apart. See proofs/Claims.antt.
#![tactic(auto)]
