// A whole session on one board: the two files and a list of calls, with every outcome.
#![tactic(auto)]

pub mod call;
pub mod faults;
pub mod make;
