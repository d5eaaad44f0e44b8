// A network of signals: what drives them, turns by which every wire climbs, and the rewiring of a pin.
#![tactic(auto)]

mod cycle;
pub mod cyclic;
pub mod gate;
pub mod limit;
pub mod network;
mod ranking;
pub mod sense;
pub mod signal;
pub mod span;
pub mod turns;
mod wires;
