// The lines of an input, and the lines of its report.
#![tactic(auto)]

pub mod input;
pub mod output;
