// A network without cycles.
ghost use Rattle.std.specs.Prelude.{◌≡◌, ◌≤◌, length};
ghost use Rattle.network.specs.Limit.{max_signals};
ghost use Rattle.network.specs.Turns.{count_of, turns_of};
ghost use Rattle.network.specs.Wiring.{Driven, Wired, LatchesWired, Climbs};

use crate::signal::Signal;
use crate::turns::Turns;

mod build;
mod laws;
pub mod mark;
mod reads;
pub mod rewire;
mod turns;

/// Signals, and turns that number them from 0 without gaps so that every wire climbs.
#[derive(Drop)]
pub struct Network {
    signals: Vec<Signal>,
    turns: Turns,
    ghost few: { length signals.items ≤ max_signals },
    ghost driven: { Driven signals.items },
    ghost wired: { Wired signals.items },
    ghost latched: { LatchesWired signals.items },
    ghost counted: { count_of turns ≡ length signals.items },
    ghost climbs: { Climbs signals.items (turns_of turns) },
}
