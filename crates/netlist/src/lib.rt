// Reading a netlist.
#![tactic(auto)]

mod change;
pub mod draft;
pub mod examples;
pub mod laws;
mod line_words;
mod lines;
mod names;
pub mod netlist_fault;
pub mod read;
pub mod reader;
pub mod room;
mod rowing;
mod signals;
mod spans;
mod stage;
mod state;
mod statements;
