// Two signals in each other's turn.
ghost use Rattle.std.specs.Prelude.{◌≡◌, ◌<◌};
ghost use Rattle.std.specs.List.{swap};
ghost use Rattle.network.specs.Turns.{count_of, order_of};

use crate::turns::Turns;

impl Turns {
    // Exchanges the signals of two turns.
    pub(crate) fn swap(&mut self, a: usize, b: usize)
        requires a { a < count_of self.old }
        requires b { b < count_of self.old }
        ensures { order_of self.new ≡ swap (order_of self.old) a b }
    {
        self.order.swap(a, b);
        self.turn_of[usize::from(self.order[a])] = a as u16;
        self.turn_of[usize::from(self.order[b])] = b as u16;
    }
}
