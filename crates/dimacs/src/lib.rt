// Plans from and to DIMACS edge files, on lists that the caller owns.
#![tactic(auto)]

mod draw;
pub mod export;
pub mod import;
