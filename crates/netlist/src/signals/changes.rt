// What lines do to signals.
ghost use Rattle.std.specs.Prelude.{◌≡◌, ℕ, List};
ghost use Rattle.netlist.specs.Signals.{on_named, on_each};
ghost use Rattle.netlist.specs.Views.{piece_on, pieces, signal_on, signals_in, change_on};

use crate::change::Change;
use crate::signals::Signals;
use network::signal::Signal;
use network::span::Span;

fn changed(signal: Signal, change: Change) -> Signal
    ensures { (t : List ℕ) → signal_on t result ≡ change_on t change (signal_on t signal) }
{
    match change {
        Change::Drive(driver) => Signal { driver, ..signal },
        Change::Output => Signal {
            output: true,
            ..signal
        },
        Change::Capture => Signal {
            captured: true,
            ..signal
        },
    }
}

impl Signals {
    /// Changes the signal of this name.
    pub(crate) fn change_named(&mut self, text: &[u8], name: Span, change: Change)
        ensures { signals_in text.now self.new ≡ on_named (change_on text.now change) (signals_in text.now self.old) (piece_on text.now name) }
    {
        if let Some(number) = self.position(text, name) {
            self.items[number] = changed(self.items[number], change);
        }
    }

    /// Changes each of the named signals.
    pub(crate) fn change_each(&mut self, text: &[u8], names: &[Span], change: Change)
        ensures { signals_in text.now self.new ≡ on_each (change_on text.now change) (signals_in text.now self.old) (pieces text.now names.now) }
    {
        for w in names {
            self.change_named(text, *w, change);
        }
    }
}
