// The turns that signals have at first.
ghost use Rattle.std.specs.Prelude.{◌≡◌, ℕ, ◌≤◌, IfOk, vec_capacity};
ghost use Rattle.std.specs.List.{range_with_len};
ghost use Rattle.network.specs.Limit.{max_signals};
ghost use Rattle.network.specs.Turns.{count_of, HasRoom};

use crate::limit::MAX_SIGNALS;
use crate::turns::Turns;
use std::alloc::{AllocError, Global};

// Makes the list 0, 1, .. of so many numbers, one by one: `extend` would ask for memory.
fn count_up(numbers: &mut Vec<u16>, count: usize)
    requires few { count ≤ max_signals }
    requires room { count ≤ vec_capacity numbers.old }
    ensures { numbers.new.items ≡ range_with_len 0 count }
{
    numbers.clear();
    for number in 0..count {
        numbers.push_reserved(number as u16);
    }
}

impl Turns {
    /// Room for the turns of as many signals as a network may have; there are none yet.
    pub fn new(heap: Global) -> Result<Turns, AllocError>
        ensures none { IfOk result (λ t. count_of t ≡ 0) }
        ensures room { IfOk result (HasRoom max_signals) }
    {
        let turn_of = Vec::with_capacity(heap, MAX_SIGNALS)?;
        let order = Vec::with_capacity(heap, MAX_SIGNALS)?;
        Ok(Turns { turn_of, order })
    }

    /// Room for as many turns as both vectors have room for; what they held is gone.
    pub fn in_room_of(mut turn_of: Vec<u16>, mut order: Vec<u16>) -> Turns
        ensures none { count_of result ≡ 0 }
        ensures room { (n : ℕ) → n ≤ vec_capacity turn_of → n ≤ vec_capacity order → HasRoom n result }
    {
        turn_of.clear();
        order.clear();
        Turns { turn_of, order }
    }

    // Gives so many signals each its own number for its turn.
    pub(crate) fn start(&mut self, count: usize)
        requires few { count ≤ max_signals }
        requires room { HasRoom count self.old }
        ensures { count_of self.new ≡ count }
    {
        count_up(&mut self.turn_of, count);
        count_up(&mut self.order, count);
    }
}
