// The search for the lowest signal on a cycle.
ghost use Rattle.std.specs.Prelude.{◌≡◌, ◌<◌, ◌≤◌, true, false, length};
ghost use Rattle.network.specs.Reach.{OnCycle, Acyclic, LowestOnCycle};
ghost use Rattle.network.specs.Search.{Searched};
ghost use Rattle.network.specs.Wiring.{wires};

use crate::limit::MAX_SIGNALS;
use crate::wires::Wires;

impl Wires<'_> {
    // Marks what leads to the signal, going back from it and no further than to what is marked.
    fn mark_back(self, signal: usize, marks: &mut [bool])
        requires { length self.signals.now ≤ length marks.old }
        ensures { Searched self.entry.signals.now signal (wires self.entry.signals.now signal) marks.old marks.new }
    {
        for feeder in self.feeders(signal) {
            let source = usize::from(*feeder);
            if !marks[source] {
                marks[source] = true;
                self.mark_back(source, marks);
            }
        }
    }

    // Is the signal on a cycle?
    fn is_on_cycle(self, signal: usize) -> bool
        requires { signal < length self.signals.now }
        ensures is { result ≡ true → OnCycle self.entry.signals.now signal }
        ensures not { result ≡ false → OnCycle self.entry.signals.now signal → ⊥ }
    {
        let mut marks = [false; MAX_SIGNALS];
        self.mark_back(signal, &mut marks);
        marks[signal]
    }

    // The lowest signal on a cycle, where there is one.
    pub(crate) fn lowest_on_cycle(self) -> usize
        requires { Acyclic self.signals.now → ⊥ }
        ensures is { LowestOnCycle self.entry.signals.now result }
        ensures within { result < length self.entry.signals.now }
    {
        (0..self.signals.len())
            .find(|signal| self.is_on_cycle(*signal))
            .unwrap()
    }
}
