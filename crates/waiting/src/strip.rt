// A waiting list of 256 bits.
ghost use Rattle.std.specs.Prelude.{length, MatchOption};
ghost use Rattle.waiting.specs.Turns.{Empty};
ghost use Rattle.waiting.specs.Bits.{ZerosBefore, FirstSet, in_strip, strip_below};

use crate::list::{OverLimit, WaitingList};

/// Turn t waits where bit t % 32 of word t / 32 is set.
#[derive(Clone, Copy)]
pub struct BitStrip {
    words: [u32; 8],
}

impl BitStrip {
    /// No turn waits.
    pub fn new() -> BitStrip
        ensures { Empty (⟦<BitStrip as WaitingList>⟧.waits result) }
    {
        BitStrip { words: [0; 8] }
    }
}

impl WaitingList for BitStrip {
    ghost limit = { λ _. 256 };

    ghost waits = { λ strip. in_strip 8 strip.words };

    ghost below = { λ strip. strip_below 8 strip.words };

    fn limit(&self) -> usize {
        256
    }

    fn clear(&mut self) {
        *self = BitStrip::new();
    }

    fn put(&mut self, turn: u16) -> Result<(), OverLimit> {
        if turn >= 256 {
            return Err(OverLimit);
        }
        let word = usize::from(turn / 32);
        self.words[word] |= 1u32 << (turn % 32);
        Ok(())
    }

    fn take(&mut self) -> Option<u16> {
        let word = first_set(&self.words)?;
        let bit = self.words[word].trailing_zeros();
        self.words[word] ^= 1u32 << bit;
        Some(32 * word as u16 + bit as u16)
    }
}

// The first word that has a bit set.
fn first_set(words: &[u32]) -> Option<usize>
    ensures { MatchOption result (ZerosBefore words.now (length words.now)) (FirstSet words.now) }
{
    words.iter().position(|word| *word != 0)
}
