// Refusals: why a call said no, and where in the file.
#![tactic(auto)]

pub mod cause;
pub mod limit;
pub mod refusal;
pub mod room_fault;
