// A pin's new feeder.
ghost use Rattle.std.specs.Prelude.{◌≡◌, ◌<◌, ◌≤◌, false, length, MatchResult};
ghost use Rattle.network.specs.Marks.{marked, MarksReached};
ghost use Rattle.network.specs.Net.{signals as signals_of, size as size_of, fanin};
ghost use Rattle.network.specs.Rewiring.{rewired, rewired_at, Accepted, Refused};
ghost use Rattle.network.specs.Wiring.{number_of_pins};

use crate::network::Network;
use crate::network::mark::mark_reached;
use crate::signal::{Driver, Signal};

/// The new feeder is the gate's own signal, or is reached from it.
#[derive(Clone, Copy, PartialEq, Eq, Debug)]
pub struct ClosesCycle;

impl Signal {
    // The signal with another feeder at a pin of its gate.
    fn with_feeder(self, pin: usize, feeder: u16) -> Signal
        requires { pin < number_of_pins self.driver }
        ensures { result ≡ rewired self pin feeder }
    {
        let Driver::Gated(mut wired) = self.driver else {
            unreachable()
        };
        wired.pins[pin] = feeder;
        Signal {
            driver: Driver::Gated(wired),
            ..self
        }
    }
}

impl Network {
    // Gives a gate's pin another feeder, which has no mark, where all that the gate reaches has one.
    fn connect(&mut self, gate: usize, pin: usize, feeder: u16, marks: &[u8])
        requires there { pin < fanin self.old gate }
        requires known { feeder < size_of self.old }
        requires fits { size_of self.old ≤ length marks.now }
        requires reached { MarksReached self.old gate marks.now }
        requires apart { marked marks.now feeder ≡ false }
        ensures { signals_of self.new ≡ rewired_at (signals_of self.old) gate pin feeder }
    {
        self.turns.put_last(marks);
        self.signals[gate] = self.signals[gate].with_feeder(pin, feeder);
    }

    /// Gives a gate's pin another feeder, and the signals turns by which every wire climbs.
    /// Refuses a feeder that is the gate's own signal or is reached from it. The strip is for marks.
    pub fn rewire(
        &mut self,
        gate: usize,
        pin: usize,
        feeder: u16,
        strip: &mut [u8],
    ) -> Result<(), ClosesCycle>
        requires there { pin < fanin self.old gate }
        requires known { feeder < size_of self.old }
        requires fits { size_of self.old ≤ length strip.old }
        ensures { MatchResult result (λ _. Accepted self.old self.new gate pin feeder) (λ _. Refused self.old self.new gate pin feeder) }
    {
        mark_reached(self, gate, strip);
        if strip[usize::from(feeder)] != 0 {
            return Err(ClosesCycle);
        }
        self.connect(gate, pin, feeder, strip);
        Ok(())
    }
}
