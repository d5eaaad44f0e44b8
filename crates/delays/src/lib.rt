// The delay table: what its fields may name in a network, and why it is refused.
#![tactic(auto)]

pub mod check;
pub mod faults;
pub mod laws;
mod marks;
pub mod parts;
