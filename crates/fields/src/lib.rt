// Numbers in four columns: read at an offset of a list of bytes, and written line by line.
#![tactic(auto)]

pub mod field;
pub mod write;
