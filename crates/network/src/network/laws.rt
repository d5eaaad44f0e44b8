// What holds of every network.
ghost use Rattle.network.specs.Laws.{WiresClimb, TurnsNumber};
ghost use Rattle.network.specs.Net.{signals};
ghost use Rattle.network.specs.Reach.{Acyclic};

use crate::network::Network;

impl Network {
    /// No signal is on a cycle.
    pub fn acyclic(&self)
        ensures { Acyclic (signals self.now) }
    {}

    /// Every wire climbs in turn.
    pub fn wires_climb(&self)
        ensures { WiresClimb self.now }
    {}

    /// The turns number the signals from 0 without gaps.
    pub fn turns_number(&self)
        ensures { TurnsNumber self.now }
    {}
}
