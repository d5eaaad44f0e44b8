// Makes calls on a board.
ghost use Rattle.std.specs.Prelude.{◌≡◌, length, replicate};
ghost use Rattle.waiting.specs.Turns.{Empty};
ghost use Rattle.opening.specs.Boards.{view_of, view_at};
ghost use Rattle.board.specs.Runs.{Called, CallFollows};
ghost use Rattle.replay.specs.Calls.{call_of};

use crate::call::{Call, Outcome};
use edits::edits::apply;
use gauge::gauges::Gauge;
use gauge::matrix::EdgeMatrix;
use opening::board::Board;
use opening::lend;
use script::run::run_script;
use waiting::list::WaitingList;

/// Makes one call: an edit, or a script.
// Board, list and strip stay parameters, as in edits: each call promises `empty` and `limit` of its own list.
pub fn make_call<G: Gauge, W: WaitingList>(
    board: Board<'_, EdgeMatrix<G>>,
    list: &mut W,
    strip: &mut [u8],
    call: Call<'_>,
) -> Outcome
    ensures called { Called G.Semiring.ops G.Gauge.delays (length strip.old) (W.WaitingList.limit list.old) (call_of call.entry) (view_of board.entry) (view_at board.exit) result }
    ensures follows { CallFollows G.Semiring.ops G.Gauge.delays (length strip.old) (W.WaitingList.limit list.old) (call_of call.entry) (view_of board.entry) (view_at board.exit) result }
    ensures blank { strip.new ≡ replicate (length strip.old) 0 }
    ensures empty { Empty (W.WaitingList.waits list.new) }
    ensures limit { W.WaitingList.limit list.new ≡ W.WaitingList.limit list.old }
{
    match call {
        Call::Edit(edit) => Ok(lend!(board => apply(board, list, strip, edit))?),
        Call::Script(file) => lend!(board => run_script(board, list, strip, file)),
    }
}
