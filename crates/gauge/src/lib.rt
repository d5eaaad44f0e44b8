// Semirings, the gauges Late, Early and Count, and edge matrices over any semiring.
#![tactic(auto)]

pub mod arrivals;
pub mod count;
pub mod early;
pub mod edge;
pub mod gauges;
pub mod late;
pub mod matrix;
pub mod semiring;
pub mod time;
