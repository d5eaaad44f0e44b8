// Turns numbered anew: what is marked goes last.
ghost use Rattle.std.specs.Prelude.{◌≡◌, ℕ, ◌+◌, ◌<◌, ◌≤◌, length, slice_index, slice_index_or};
ghost use Rattle.network.specs.Limit.{max_signals};
ghost use Rattle.network.specs.Renumbering.{Distinct, Numbered, Renumbered, picks};
ghost use Rattle.network.specs.Tally.{many};
ghost use Rattle.network.specs.Turns.{count_of, turns_of, order_of};

use crate::turns::Turns;

// `number` and `renumber` ask this of the order, `list_by_turn` of the turns; `Turns` itself can't hold it in between.

// Does the signal have a mark, or none, whichever is wanted?
// A flag, not a test: the contracts of both passes name what is picked by one definition with it.
fn is_picked(marks: &[u8], wanted: bool, signal: usize) -> bool
    requires { signal < length marks.now }
    ensures { result ≡ picks marks.now wanted signal }
{
    (marks[signal] != 0) == wanted
}

// Numbers from `first` on the signals whose mark is as wanted, in the order given, and answers the next number.
fn number(order: &[u16], marks: &[u8], wanted: bool, first: u16, turn_of: &mut [u16]) -> u16
    requires few { first + many (λ t. picks marks.now wanted (slice_index order.now t)) (length order.now) ≤ max_signals }
    requires distinct { Distinct order.now (length turn_of.old) }
    requires fits { length turn_of.old ≤ length marks.now }
    ensures { Numbered (picks marks.now wanted) order.now first (length order.now) turn_of.old turn_of.new result }
{
    // `next` counts the picked alone and is answered: a filter zipped with a range would count them, but not tell where it stopped.
    let mut next = first;
    for listed in order {
        let signal = usize::from(*listed);
        if is_picked(marks, wanted, signal) {
            turn_of[signal] = next;
            next += 1;
        }
    }
    next
}

// Numbers the signals anew: what is marked goes after what is not, and else the order stays.
fn renumber(order: &[u16], marks: &[u8], turn_of: &mut [u16])
    requires few { length order.now ≤ max_signals }
    requires distinct { Distinct order.now (length turn_of.old) }
    requires fits { length turn_of.old ≤ length marks.now }
    ensures { Renumbered marks.now order.now turn_of.new }
{
    let marked = number(order, marks, false, 0, turn_of);
    let _ = number(order, marks, true, marked, turn_of);
}

// Lists the signals by their turns.
fn list_by_turn(turn_of: &[u16], order: &mut [u16])
    requires few { length turn_of.now ≤ max_signals }
    requires distinct { Distinct turn_of.now (length order.old) }
    ensures { (s : ℕ) → s < length turn_of.now → slice_index order.new (slice_index_or turn_of.now s 0) ≡ s }
{
    for (signal, turn) in turn_of.iter().enumerate() {
        order[usize::from(*turn)] = signal as u16;
    }
}

impl Turns {
    // Puts the marked signals last, and else keeps the order.
    pub(crate) fn put_last(&mut self, marks: &[u8])
        requires { count_of self.old ≤ length marks.now }
        ensures long { count_of self.new ≡ count_of self.old }
        ensures moved { Renumbered marks.now (order_of self.old) (turns_of self.new) }
    {
        renumber(&self.order, marks, &mut self.turn_of);
        list_by_turn(&self.turn_of, &mut self.order);
    }
}
