// The fields of a delay table and of a script: how one is opened, and what it says.
#![tactic(auto)]

pub mod edit;
pub mod entry;
pub mod faults;
pub mod field;
pub mod laws;
pub mod read;
pub mod says;
mod words;
