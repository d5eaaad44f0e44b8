// The edit book: what the files and the accepted edits say of wires, weights and starts, and what it answers to each call.
#![tactic(auto)]

pub mod edit_fault;
pub mod laws;
pub mod script_fault;
