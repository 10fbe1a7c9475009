// What the reader sees at an offset of a text: bytes, the fields of a bracket, and an atom's spelling.
#![tactic(auto)]

pub mod bracket;
pub mod byte;
pub mod spelled;
