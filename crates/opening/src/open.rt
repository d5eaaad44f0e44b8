// Opens a board.
ghost use Rattle.std.specs.Prelude.{◌≡◌, is_ok, if◌then◌else◌};
ghost use Rattle.waiting.specs.Turns.{Empty};
ghost use Rattle.opening.specs.Boards.{view_of, view_at};
ghost use Rattle.opening.specs.Opens.{answer_of, opened_view};

use crate::board::Board;
use crate::fill::fill;
use crate::forwards::Forwards;
use delays::check::check;
use delays::faults::DelayFault;
use fields::entry::Clock;
use gauge::gauges::Gauge;
use gauge::matrix::EdgeMatrix;
use settling::web::Web;
use waiting::list::WaitingList;

/// The delay table's clock, and the number of signals.
#[derive(Clone, Copy, PartialEq, Eq, Debug)]
pub struct Opened {
    pub clock: Clock,
    pub count: usize,
}

/// Fills the tables as the network and the delay table say, and makes each value its path sum.
// Board and list stay parameters, as in edits: each call promises `empty` and `limit` of its own list.
pub fn open<G: Gauge, W: WaitingList>(
    board: Board<'_, EdgeMatrix<G>>,
    file: &[u8],
    list: &mut W,
) -> Result<Opened, DelayFault>
    ensures answers { result ≡ answer_of (view_of board.entry) (W.WaitingList.limit list.old) file.now }
    ensures board { view_at board.exit ≡ (if is_ok result then opened_view G.Semiring.ops G.Gauge.delays file.now (view_of board.entry) else view_of board.entry) }
    ensures empty { Empty (W.WaitingList.waits list.new) }
    ensures limit { W.WaitingList.limit list.new ≡ W.WaitingList.limit list.old }
{
    list.clear();
    board.check_room(None, list.limit())?;
    let Board {
        network,
        starts,
        weights,
        values,
    } = board;
    let clock = check(network, file)?;
    fill(network, file, starts, weights);
    let web = Web {
        wiring: &Forwards { network },
        starts,
        weights,
    };
    let count = web.work_all(values, list);
    Ok(Opened { clock, count })
}
