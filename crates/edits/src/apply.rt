// Makes any edit.
ghost use Rattle.std.specs.Prelude.{◌≡◌, length};
ghost use Rattle.waiting.specs.Turns.{Empty};
ghost use Rattle.opening.specs.Boards.{view_of, view_at};
ghost use Rattle.board.specs.Steps.{Stepped};

use crate::check::check;
use crate::write::{edited_signal, write};
use book::edit_fault::EditFault;
use fields::edit::Edit;
use gauge::gauges::Gauge;
use gauge::matrix::EdgeMatrix;
use opening::board::Board;
use opening::forwards::Forwards;
use settling::web::Web;
use waiting::list::WaitingList;

/// Makes the edit of a field whose tag stands at a place, and answers how many signals were worked. The strip is left with marks.
// Board, list and strip stay parameters, as in edits: each call promises `empty` and `limit` of its own list.
pub fn apply_at<G: Gauge, W: WaitingList>(
    board: Board<'_, EdgeMatrix<G>>,
    list: &mut W,
    strip: &mut [u8],
    edit: Edit,
    at: usize,
) -> Result<usize, EditFault>
    ensures stepped { Stepped G.Semiring.ops G.Gauge.delays (length strip.old) (W.WaitingList.limit list.old) at edit (view_of board.entry) (view_at board.exit) result }
    ensures empty { Empty (W.WaitingList.waits list.new) }
    ensures limit { W.WaitingList.limit list.new ≡ W.WaitingList.limit list.old }
{
    list.clear();
    check(&board, strip.len(), list.limit(), at, edit)?;
    let Board {
        network,
        starts,
        weights,
        values,
    } = board;
    write(network, starts, weights, strip, edit, at)?;
    let edited = edited_signal(edit);
    let web = Web {
        wiring: &Forwards { network },
        starts,
        weights,
    };
    Ok(web.settle(values, list, edited))
}
