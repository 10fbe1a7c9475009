// A state that the caller hands in: whether it is refused as 25, the mode that it names, and its offsets within the limit.
#![tactic(auto)]

pub mod broken;
pub mod limit;
pub mod mode;
