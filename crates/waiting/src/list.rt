// What a waiting list is.
ghost use Rattle.std.specs.Prelude.{◌≡◌, ℕ, ◌<◌, Bool, true, false, not, ◌&&◌, ◌||◌, is_ok, MatchOption, ◌==◌, nat_lt};
ghost use Rattle.waiting.specs.Turns.{Empty, Least, gives};

/// The turn is not below the limit.
#[derive(Clone, Copy, PartialEq, Eq, Debug)]
pub struct OverLimit;

/// A limit that never changes, and a set of turns below it.
pub trait WaitingList {
    ghost limit: { Self → ℕ };

    // Whether a turn is in the set.
    ghost waits: { Self → ℕ → Bool };

    // What waits is below the limit.
    ghost below: { (list : Self) (t : ℕ) → waits list t ≡ true → t < limit list };

    /// Tells the limit, and changes nothing.
    fn limit(&self) -> usize
        ensures value { result ≡ limit self.now }
        ensures same { self.exit.now ≡ self.entry.now };

    /// Empties the set.
    fn clear(&mut self)
        ensures limit { limit self.new ≡ limit self.old }
        ensures empty { Empty (waits self.new) };

    /// Adds the turn to the set, or refuses it exactly if it is not below the limit.
    fn put(&mut self, turn: u16) -> Result<(), OverLimit>
        ensures limit { limit self.new ≡ limit self.old }
        ensures accepts { is_ok result ≡ nat_lt turn (limit self.old) }
        ensures added { (t : ℕ) → waits self.new t ≡ ((is_ok result && t == turn) || waits self.old t) }
        ensures refused { is_ok result ≡ false → self.new ≡ self.old };

    /// Removes the least turn of the set and answers it, or answers none exactly if the set is empty.
    fn take(&mut self) -> Option<u16>
        ensures limit { limit self.new ≡ limit self.old }
        ensures least { MatchOption result (Empty (waits self.old)) (Least (waits self.old)) }
        ensures removed { (t : ℕ) → waits self.new t ≡ (not (gives result t) && waits self.old t) };
}
