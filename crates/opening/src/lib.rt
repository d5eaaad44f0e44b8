// Opening a board: its tables filled as the network and the delay table say, and each value its path sum.
#![tactic(auto)]

pub mod board;
pub mod cells;
mod fill;
pub mod forwards;
pub mod laws;
pub mod open;
