ghost use Rattle.std.specs.Prelude.{◌≡◌, ◌<◌, ◌≤◌, length, MatchOption};
ghost use Rattle.settling.specs.Shapes.{Shape, Sound, tap_at, feeds, FirstFed, NoneFed};

use crate::tap::Tap;

/// Signals with the wires between them, read in one direction, and turns by which every wire climbs.
// `signal < size` stands with each function: a type for such numbers would be made anew at each tap and each turn.
pub trait Wiring {
    ghost shape: { Self → Shape };

    ghost sound: { (wiring : Self) → Sound (shape wiring) };

    // Turns are 16-bit numbers.
    ghost few: { (wiring : Self) → (shape wiring).size ≤ 65535 };

    /// The number of signals.
    fn signal_count(&self) -> usize
        ensures { result ≡ (shape self.now).size };

    /// The turn of a signal.
    fn turn(&self, signal: usize) -> u16
        requires { signal < (shape self.now).size }
        ensures { result ≡ (shape self.now).turn signal };

    /// The signal that has the turn.
    fn signal_at(&self, turn: u16) -> usize
        requires { turn < (shape self.now).size }
        ensures { result ≡ (shape self.now).signal_at turn };

    /// The number of taps into a signal.
    // By place: a trait's function may not answer `impl Iterator`.
    fn tap_count(&self, signal: usize) -> usize
        requires { signal < (shape self.now).size }
        ensures { result ≡ length ((shape self.now).taps signal) };

    /// The tap in a place of a signal's list.
    fn tap(&self, signal: usize, place: usize) -> Tap
        requires signal { signal < (shape self.now).size }
        requires place { place < length ((shape self.now).taps signal) }
        ensures { result ≡ tap_at (shape self.now) signal place };

    /// Whether `signal` has a tap from `source`.
    fn is_fed_by(&self, signal: usize, source: usize) -> bool
        requires { signal < (shape self.now).size }
        ensures { result ≡ feeds (shape self.now) source signal }
    {
        (0..self.tap_count(signal)).any(|place| self.tap(signal, place).from == source)
    }

    /// The least signal from `start` on that has a tap from `source`, if there is one; found by a scan unless an `impl` looks it up.
    fn next_fed(&self, source: usize, start: usize) -> Option<usize>
        requires { source < (shape self.now).size }
        ensures { MatchOption result (NoneFed (shape self.now) source start) (FirstFed (shape self.now) source start) }
    {
        (start..self.signal_count()).find(|&signal| self.is_fed_by(signal, source))
    }
}
