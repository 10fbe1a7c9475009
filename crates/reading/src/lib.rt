// Reading, as a fold over the bytes of a text: definitions and theorems only.
#![tactic(auto)]
