// Turns and wires: for every number, and lean where the number is known to be one.
ghost use Rattle.std.specs.Prelude.{◌≡◌, ◌<◌, All};
ghost use Rattle.network.specs.Net.{signals as signals_of, size as size_of, turn as turn_of, signal_by_turn, fanin, from, turn_if, signal_at_if, from_if};
ghost use Rattle.network.specs.Wiring.{feeders as feeders_of};

use crate::network::Network;
use crate::wires::Wires;

impl Network {
    /// The turn of a signal.
    pub fn get_turn(&self, signal: usize) -> Option<u16>
        ensures { result ≡ turn_if self.now signal }
    {
        (signal < self.size()).then(|| self.turn(signal))
    }

    /// The signal at a turn.
    pub fn get_signal_at(&self, turn: u16) -> Option<usize>
        ensures { result ≡ signal_at_if self.now turn }
    {
        (usize::from(turn) < self.size()).then(|| self.signal_at(turn))
    }

    /// The signal at a pin.
    pub fn get_feeder(&self, signal: usize, pin: usize) -> Option<usize>
        ensures { result ≡ from_if self.now signal pin }
    {
        (pin < self.pin_count(signal)).then(|| self.feeder(signal, pin))
    }

    /// The turn of a signal that there is.
    pub fn turn(&self, signal: usize) -> u16
        requires { signal < size_of self.now }
        ensures is { result ≡ turn_of self.now signal }
        ensures within { result < size_of self.now }
    {
        self.turns.turn(signal)
    }

    /// The signal at a turn that there is.
    pub fn signal_at(&self, turn: u16) -> usize
        requires { turn < size_of self.now }
        ensures is { result ≡ signal_by_turn self.now turn }
        ensures within { result < size_of self.now }
        ensures back { turn_of self.now result ≡ turn }
    {
        self.turns.signal_at(usize::from(turn))
    }

    // The signals at the pins of a signal's gate; none where no gate drives it.
    pub(crate) fn feeders(&self, signal: usize) -> &[u16]
        ensures is { result.now ≡ feeders_of (signals_of self.now) signal }
        ensures within { All (λ f. f < size_of self.now) result.now }
    {
        let wires = Wires {
            signals: &self.signals,
        };
        wires.feeders(signal)
    }

    /// The signal at a pin that there is.
    pub fn feeder(&self, signal: usize, pin: usize) -> usize
        requires { pin < fanin self.now signal }
        ensures is { result ≡ from self.now signal pin }
        ensures within { result < size_of self.now }
        ensures below { turn_of self.now result < turn_of self.now signal }
    {
        usize::from(self.signals[signal].driver.pin(pin))
    }
}
