// The value of a gate.
ghost use Rattle.std.specs.Prelude.{◌≡◌};
ghost use Rattle.network.specs.Truth.{bit, truth};

use crate::gate::Gate;

// Is this bit of the number, which has 64, a 1?
pub(super) fn has_bit(number: usize, place: usize) -> bool
    ensures { result ≡ bit number place }
{
    place < 64 && (number >> place) % 2 == 1
}

impl Gate {
    /// The gate's value in a setting, in whose number pin j weighs 2^j.
    pub fn value(&self, setting: usize) -> bool
        ensures { result ≡ truth self.now setting }
    {
        self.last_word
            .is_some_and(|word| has_bit(usize::from(self.matched), setting) == word)
    }
}
