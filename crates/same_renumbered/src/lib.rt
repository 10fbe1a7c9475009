// Theorems only: a molecule with a placement is the same compound as any renumbering of it (02, P4). See specs/Renumbered.antt and proofs/Claims.antt.
#![tactic(auto)]
