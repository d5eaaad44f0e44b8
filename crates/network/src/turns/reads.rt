// The turn of a signal, and the signal at a turn.
ghost use Rattle.std.specs.Prelude.{◌≡◌, ◌<◌};
ghost use Rattle.network.specs.Turns.{count_of, turn_in, signal_in};

use crate::turns::Turns;

impl Turns {
    // The turn of a signal.
    pub(crate) fn turn(&self, signal: usize) -> u16
        requires { signal < count_of self.now }
        ensures is { result ≡ turn_in self.now signal }
        ensures within { result < count_of self.now }
    {
        self.turn_of[signal]
    }

    // The signal at a turn.
    pub(crate) fn signal_at(&self, turn: usize) -> usize
        requires { turn < count_of self.now }
        ensures is { result ≡ signal_in self.now turn }
        ensures within { result < count_of self.now }
        ensures back { turn_in self.now result ≡ turn }
    {
        usize::from(self.order[turn])
    }
}
