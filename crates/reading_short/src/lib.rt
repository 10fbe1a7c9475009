// Theorems: reading into tables with a row for each byte of the text is reading into tables of full length; no code.
#![tactic(auto)]
