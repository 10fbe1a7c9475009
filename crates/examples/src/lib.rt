// The texts that 01 marks to be proved, as one table under one theorem.
#![tactic(auto)]
