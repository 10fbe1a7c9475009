// Writing a molecule: definitions and theorems only.
#![tactic(auto)]
