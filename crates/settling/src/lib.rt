// Works the values of signals by their turns: all of them, or after an edit those that a change reaches.
#![tactic(auto)]

pub mod laws;
mod settle;
pub mod tap;
pub mod web;
pub mod wiring;
