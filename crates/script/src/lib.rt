// Scripts: edits in a file, made in order up to the first that is refused.
#![tactic(auto)]

mod check;
pub mod run;
mod take;
