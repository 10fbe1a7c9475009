// Theorems: the renumberings that the search over matrices goes to are ways between the matrices of orders; no code.
#![tactic(auto)]
