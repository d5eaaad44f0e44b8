// Boards under edits: what edits, scripts and chains of calls leave of any values and of path sums, and what the book says of them.
#![tactic(auto)]

pub mod laws;
