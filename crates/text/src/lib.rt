// Bytes, lines and words of a netlist's text.
#![tactic(auto)]

pub mod fixed;
pub mod scan;
pub mod token;
pub mod word;
pub mod word_fault;
