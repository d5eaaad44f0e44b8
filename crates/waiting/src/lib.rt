// Waiting lists: sets of turns below a limit, from which the least turn is taken.
#![tactic(auto)]

pub mod drain;
pub mod list;
pub mod strip;
