// The wires of a list of signals.
ghost use Rattle.std.specs.Prelude.{◌≡◌, ◌<◌, ◌≤◌, All, length};
ghost use Rattle.network.specs.Limit.{max_signals};
ghost use Rattle.network.specs.Wiring.{Wired, number_of_pins, signal_at_pin, pins_of, feeders as feeders_of};

use crate::signal::{Driver, Signal};

impl Driver {
    // The signals at the pins; none where it is no gate.
    fn pins(&self) -> &[u16]
        ensures { result.now ≡ pins_of self.now }
    {
        match self {
            Driver::Gated(gate) => gate.pins(),
            Driver::Undriven | Driver::Input | Driver::Latched(_) => &[],
        }
    }

    // How many pins; 0 where it is no gate. Neither this nor `pin` goes by `pins`: a scan would make that slice for each signal that it passes over.
    pub(crate) fn pin_count(&self) -> usize
        ensures is { result ≡ number_of_pins self.now }
        ensures few { result ≤ 4 }
    {
        match self {
            Driver::Gated(gate) => usize::from(gate.pin_count),
            Driver::Undriven | Driver::Input | Driver::Latched(_) => 0,
        }
    }

    // The signal at a pin that there is.
    pub(crate) fn pin(&self, pin: usize) -> u16
        requires { pin < number_of_pins self.now }
        ensures { result ≡ signal_at_pin self.now pin }
    {
        match self {
            Driver::Gated(gate) => gate.pins[pin],
            Driver::Undriven | Driver::Input | Driver::Latched(_) => unreachable(),
        }
    }
}

// The signals at the pins of a signal's gate; none where no gate drives it.
pub(crate) fn feeders(signals: &[Signal], signal: usize) -> &[u16]
    ensures { result.now ≡ feeders_of signals.now signal }
{
    match signals.get(signal) {
        Some(found) => found.driver.pins(),
        None => &[],
    }
}

/// Signals, each pin of which reads one of them.
#[derive(Clone, Copy)]
pub(crate) struct Wires<'a> {
    pub(crate) signals: &'a [Signal],
    ghost few: { length signals.now ≤ max_signals },
    ghost wired: { Wired signals.now },
}

impl<'a> Wires<'a> {
    // The signals at the pins of a signal's gate; none where no gate drives it.
    pub(crate) fn feeders(self, signal: usize) -> &'a [u16]
        ensures is { result.now ≡ feeders_of self.entry.signals.now signal }
        ensures within { All (λ f. f < length self.entry.signals.now) result.now }
    {
        feeders(self.signals, signal)
    }
}
