ghost use Rattle.std.specs.Prelude.{◌≡◌};
ghost use Rattle.network.specs.Limit.{max_signals};
ghost use Rattle.network.specs.Turns.{count_of, HasRoom};

use crate::line_words::LineWords;
use crate::signals::Signals;
use network::turns::Turns;
use std::alloc::{AllocError, Global};

/// The memory of one network and of its reading.
#[derive(Drop)]
pub struct Room {
    pub(crate) signals: Signals,
    pub(crate) words: LineWords,
    pub(crate) turns: Turns,
    ghost unturned: { count_of turns ≡ 0 },
    ghost room: { HasRoom max_signals turns },
}

impl Room {
    /// Reserves all memory at once: nothing else can want for it.
    pub fn new(heap: Global) -> Result<Room, AllocError> {
        Ok(Room {
            signals: Signals::new(heap)?,
            words: LineWords::new(heap)?,
            turns: Turns::new(heap)?,
        })
    }
}
