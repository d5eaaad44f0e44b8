// Delays as values of a gauge: the weight of a gate's pin, and the start of a source.
#![tactic(auto)]

pub mod times;
pub mod weight;
