// Works signals: what a signal's start and its taps make of the other values.
ghost use Rattle.std.specs.Prelude.{◌≡◌, ◌<◌, ◌≤◌, length, drop};
ghost use Rattle.std.proofs.Props.{props};
ghost use Rattle.paths.specs.Sums.{brought, worked, AreSums};
ghost use Rattle.waiting.specs.Turns.{Empty};
ghost use Rattle.settling.specs.Shapes.{tap_at};
ghost use Rattle.settling.specs.Tables.{cells, wire_of, WebFits};

use crate::tap::Tap;
use crate::wiring::Wiring;
use gauge::semiring::Semiring;
use waiting::list::WaitingList;

/// Wires with a start for each signal and a weight for each tap's cell.
#[derive(Drop)]
pub struct Web<'a, V, N: Wiring> {
    pub wiring: &'a N,
    pub starts: &'a [V],
    pub weights: &'a [V],
    ghost fit: { WebFits (N.shape wiring.now) starts.now weights.now } by { Prim.hlevel props },
}

impl<V: Semiring, N: Wiring> Web<'_, V, N> {
    ghost use Rattle.settling.specs.Webs.{shape_of, web_of};

    // What the tap in a place of a signal's list brings: the value where it comes from ⊗ its weight.
    fn bring(&self, values: &[V], signal: usize, place: usize) -> V
        requires room { (shape_of self.now).size ≤ length values.now }
        requires signal { signal < (shape_of self.now).size }
        requires place { place < length ((shape_of self.now).taps signal) }
        ensures { result ≡ brought V.ops (cells V.ops values.now) (wire_of V.ops self.now.weights.now (tap_at (shape_of self.now) signal place)) }
    {
        let tap = self.wiring.tap(signal, place);
        values[tap.from].times(self.weights[tap.cell])
    }

    // The signal's start ⊕ what each tap into it brings.
    pub(crate) fn work(&self, values: &[V], signal: usize) -> V
        requires room { (shape_of self.now).size ≤ length values.now }
        requires here { signal < (shape_of self.now).size }
        ensures { result ≡ worked V.ops (web_of V.ops self.now) (cells V.ops values.now) signal }
    {
        (0..self.wiring.tap_count(signal)).fold(self.starts[signal], |sum, place| {
            sum.plus(self.bring(values, signal, place))
        })
    }

    /// Works every signal once, by turn, so that each value is its path sum; empties the list, and answers the number of signals.
    pub fn work_all<W: WaitingList>(&self, values: &mut [V], list: &mut W) -> usize
        requires { (shape_of self.now).size ≤ length values.old }
        ensures sums { AreSums V.ops (web_of V.ops self.now) (cells V.ops values.new) }
        ensures past { drop (shape_of self.now).size values.new ≡ drop (shape_of self.now).size values.old }
        ensures count { result ≡ (shape_of self.now).size }
        ensures empty { Empty (W.waits list.new) }
        ensures limit { W.limit list.new ≡ W.limit list.old }
    {
        list.clear();
        let count = self.wiring.signal_count();
        // By turn, which is what is worked: no list is indexed.
        for turn in 0..count {
            let signal = self.wiring.signal_at(turn as u16);
            values[signal] = self.work(values, signal);
        }
        count
    }
}
