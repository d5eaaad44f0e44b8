// Settles values after an edit.
ghost use Rattle.std.specs.Prelude.{◌≡◌, ℕ, ◌<◌, ◌≤◌, not, ◌&&◌, length, drop, slice_set};
ghost use Rattle.paths.specs.Sums.{worked};
ghost use Rattle.paths.specs.Edits.{only, Settled, edit_count};
ghost use Rattle.waiting.specs.Turns.{Empty};
ghost use Rattle.settling.specs.Shapes.{feeds, with_turns_of};
ghost use Rattle.settling.specs.Tables.{cells};
ghost use Rattle.settling.specs.Webs.{shape_of, web_of};

use crate::web::Web;
use crate::wiring::Wiring;
use gauge::semiring::Semiring;
use waiting::list::WaitingList;

// The values and the list stay parameters: as `&mut` fields they would save `room` and `limited`, and each method would have to
// ensure instead that it keeps both references and the wiring.
impl<V: Semiring, N: Wiring> Web<'_, V, N> {
    // Puts the turn of a signal.
    fn put_signal<W: WaitingList>(&self, list: &mut W, signal: usize)
        requires limited { (shape_of self.now).size ≤ W.limit list.old }
        requires here { signal < (shape_of self.now).size }
        ensures limit { W.limit list.new ≡ W.limit list.old }
        ensures put { (t : ℕ) → W.waits list.new t ≡ with_turns_of (shape_of self.now) (only signal) (W.waits list.old) t }
    {
        let _ = list.put(self.wiring.turn(signal));
    }

    // Puts the turn of each signal that `source` feeds.
    fn put_fed<W: WaitingList>(&self, list: &mut W, source: usize)
        requires limited { (shape_of self.now).size ≤ W.limit list.old }
        requires here { source < (shape_of self.now).size }
        ensures limit { W.limit list.new ≡ W.limit list.old }
        ensures put { (t : ℕ) → W.waits list.new t ≡ with_turns_of (shape_of self.now) (feeds (shape_of self.now) source) (W.waits list.old) t }
    {
        // `start` follows what the wiring answers, so no range counts it.
        let mut start = 0;
        while let Some(signal) = self.wiring.next_fed(source, start) {
            self.put_signal(list, signal);
            start = signal + 1;
        }
    }

    // Works a signal again, and puts the signals that it feeds if its value is another now.
    fn rework<W: WaitingList>(&self, values: &mut [V], list: &mut W, signal: usize)
        requires room { (shape_of self.now).size ≤ length values.old }
        requires limited { (shape_of self.now).size ≤ W.limit list.old }
        requires here { signal < (shape_of self.now).size }
        ensures written { values.new ≡ slice_set values.old signal (worked V.ops (web_of V.ops self.now) (cells V.ops values.old) signal) }
        ensures limit { W.limit list.new ≡ W.limit list.old }
        ensures put { (t : ℕ) → W.waits list.new t ≡ with_turns_of (shape_of self.now) (λ s. not (V.ops.same (cells V.ops values.old signal) (cells V.ops values.new signal)) && feeds (shape_of self.now) signal s) (W.waits list.old) t }
    {
        let old = values[signal];
        let new = self.work(values, signal);
        values[signal] = new;
        if !old.same(new) {
            self.put_fed(list, signal);
        }
    }

    /// Works the edited signal and every signal fed by a worked one whose value changed, by turn, each once; answers how many.
    pub fn settle<W: WaitingList>(&self, values: &mut [V], list: &mut W, edited: usize) -> usize
        requires room { (shape_of self.now).size ≤ length values.old }
        requires limited { (shape_of self.now).size ≤ W.limit list.old }
        requires here { edited < (shape_of self.now).size }
        ensures settled { Settled V.ops (only edited) (web_of V.ops self.now) (cells V.ops values.old) (cells V.ops values.new) }
        ensures past { drop (shape_of self.now).size values.new ≡ drop (shape_of self.now).size values.old }
        ensures count { result ≡ edit_count V.ops edited (web_of V.ops self.now) (cells V.ops values.old) (cells V.ops values.new) }
        ensures empty { Empty (W.waits list.new) }
        ensures limit { W.limit list.new ≡ W.limit list.old }
    {
        list.clear();
        self.put_signal(list, edited);
        // The loop puts on the list that it takes from, so no iterator's `count` serves.
        let mut count = 0;
        while let Some(turn) = list.take() {
            let signal = self.wiring.signal_at(turn);
            self.rework(values, list, signal);
            count += 1;
        }
        count
    }
}
