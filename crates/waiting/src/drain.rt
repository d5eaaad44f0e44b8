// Code over any waiting list.
ghost use Rattle.std.specs.Prelude.{◌≡◌, ◌<◌, ◌≤◌, length, take, drop};
ghost use Rattle.waiting.specs.Turns.{Empty, Drained};

use crate::list::WaitingList;

/// Takes turns off the list into `out`, as many as wait and there is room for, and answers how many.
/// With as many cells as the limit there is room for all.
// The number, not the part that was written: the contract speaks of the cells past it too.
pub fn drain_into<W: WaitingList>(list: &mut W, out: &mut [u16]) -> usize
    ensures limit { W.limit list.new ≡ W.limit list.old }
    ensures room { result ≤ length out.old }
    ensures given { Drained (W.waits list.old) (take result out.new) (W.waits list.new) }
    ensures emptied { result < length out.old → Empty (W.waits list.new) }
    ensures enough { W.limit list.old ≤ length out.old → Empty (W.waits list.new) }
    ensures past { drop result out.new ≡ drop result out.old }
{
    for (n, cell) in out.iter_mut().enumerate() {
        let Some(turn) = list.take() else {
            return n;
        };
        *cell = turn;
    }
    out.len()
}
