// A paper record as bytes: read into rows and an ordering.
#![tactic(auto)]

pub mod read;
mod reader;
