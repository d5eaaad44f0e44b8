// The four edits of a board: each is judged first, and a refused one moves nothing.
#![tactic(auto)]

pub mod apply;
mod check;
pub mod edits;
pub mod marks;
mod write;
