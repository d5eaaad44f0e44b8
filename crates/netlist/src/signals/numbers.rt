// Signals by name.
ghost use Rattle.std.specs.Prelude.{◌≡◌, ◌<◌, ◌≤◌, length, take};
ghost use Rattle.network.specs.Limit.{max_signals};
ghost use Rattle.netlist.specs.Signals.{number_of, numbers, Known, Mentioned};
ghost use Rattle.netlist.specs.Views.{piece_on, pieces, signals_in};
ghost use Rattle.netlist.specs.Outcomes.{Numbered};

use crate::names::is_named;
use crate::signals::Signals;
use crate::spans::word_at;
use network::span::Span;

impl Signals {
    /// The number of the signal of this name, if there is one.
    // Searched, not in a map: a map would ask for memory as it grows.
    pub(crate) fn position(&self, text: &[u8], name: Span) -> Option<usize>
        ensures { Numbered (signals_in text.now self.now) (piece_on text.now name).bytes result }
    {
        let name = word_at(text, name).text;
        self.items.iter().position(|s| is_named(text, s.name, name))
    }

    /// The number of a signal that has been mentioned.
    pub(crate) fn number_of(&self, text: &[u8], name: Span) -> usize
        requires { Known (signals_in text.now self.now) (piece_on text.now name).bytes }
        ensures is { result ≡ number_of (signals_in text.now self.now) (piece_on text.now name).bytes }
        ensures within { result < max_signals }
    {
        self.position(text, name).unwrap()
    }

    /// The numbers of a gate's pins, which have been mentioned.
    pub(crate) fn pin_numbers(&self, text: &[u8], pins: &[Span]) -> [u16; 4]
        requires few { length pins.now ≤ 4 }
        requires known { Mentioned (signals_in text.now self.now) (pieces text.now pins.now) }
        ensures { take (length pins.now) result ≡ numbers (signals_in text.now self.now) (pieces text.now pins.now) }
    {
        let mut found = [0u16; 4];
        // By index: with `zip` the goal `number_of-requires` stayed open, that the word it gives is one of the pins.
        for (i, w) in pins.iter().enumerate() {
            found[i] = self.number_of(text, *w) as u16;
        }
        found
    }
}
