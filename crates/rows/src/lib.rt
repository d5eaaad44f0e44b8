// The rows of a gate, and the settings that they match.
#![tactic(auto)]

pub mod fitting;
pub mod laws;
pub mod row;
pub mod settings;
