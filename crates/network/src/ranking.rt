// Turns by which every wire climbs.
ghost use Rattle.std.specs.Prelude.{◌≡◌, ◌+◌, ◌<◌, ◌≤◌, true, false, length, MatchResult};
ghost use Rattle.network.specs.Ranking.{waits as waiting, Ranked, Ready};
ghost use Rattle.network.specs.Reach.{LowestOnCycle};
ghost use Rattle.network.specs.Turns.{count_of, turns_of, order_of, HasRoom};

use crate::turns::Turns;
use crate::wires::Wires;

impl Wires<'_> {
    // Does a pin of the signal read one that has none of the first turns?
    fn waits(self, turns: &Turns, placed: usize, signal: usize) -> bool
        requires { count_of turns.now ≡ length self.signals.now }
        ensures { result ≡ waiting self.entry.signals.now (turns_of turns.now) placed signal }
    {
        self.feeders(signal).iter().any(|feeder| usize::from(turns.turn(usize::from(*feeder)))
            >= placed)
    }

    // A turn past those placed whose signal waits for none.
    fn next_ready(self, turns: &Turns, placed: usize) -> Option<usize>
        requires { count_of turns.now ≡ length self.signals.now }
        ensures { Ready self.entry.signals.now (turns_of turns.now) (order_of turns.now) placed result }
    {
        (placed..self.signals.len()).find(|turn| !self.waits(turns, placed, turns.signal_at(*turn)))
    }

    // Orders the turns so that every wire climbs, or answers the lowest signal on a cycle.
    pub(crate) fn rank(self, turns: &mut Turns) -> Result<(), usize>
        requires { HasRoom (length self.signals.now) turns.old }
        ensures { MatchResult result (λ _. Ranked self.entry.signals.now turns.new (length self.entry.signals.now)) (λ s. LowestOnCycle self.entry.signals.now s × (s < length self.entry.signals.now)) }
    {
        turns.start(self.signals.len());
        // By turn, which is what is placed: no list is indexed.
        for placed in 0..self.signals.len() {
            let Some(turn) = self.next_ready(turns, placed) else {
                return Err(self.lowest_on_cycle());
            };
            turns.swap(placed, turn);
        }
        Ok(())
    }
}
