// Runs a script.
ghost use Rattle.std.specs.Prelude.{◌≡◌, length, replicate};
ghost use Rattle.waiting.specs.Turns.{Empty};
ghost use Rattle.opening.specs.Boards.{view_of, view_at};
ghost use Rattle.book.specs.Answers.{script};
ghost use Rattle.board.specs.Runs.{Scripted, CallFollows};
ghost use Rattle.script.specs.Stops.{EndsBefore};

use crate::check::check_script;
use crate::take::take_fields;
use book::script_fault::ScriptFault;
use edits::marks::Marks;
use gauge::gauges::Gauge;
use gauge::matrix::EdgeMatrix;
use opening::board::Board;
use opening::lend;
use waiting::list::WaitingList;

/// Makes the edits of a script in order up to the first that is refused, which leaves those before it made;
/// answers the sum of their counts, or why it stopped.
// Board, list and strip stay parameters, as in edits: each call promises `empty` and `limit` of its own list.
pub fn run_script<G: Gauge, W: WaitingList>(
    board: Board<'_, EdgeMatrix<G>>,
    list: &mut W,
    strip: &mut [u8],
    file: &[u8],
) -> Result<usize, ScriptFault>
    ensures scripted { Scripted G.Semiring.ops G.Gauge.delays (length strip.old) (W.WaitingList.limit list.old) file.now (view_of board.entry) (view_at board.exit) result }
    ensures follows { CallFollows G.Semiring.ops G.Gauge.delays (length strip.old) (W.WaitingList.limit list.old) (script file.now) (view_of board.entry) (view_at board.exit) result }
    ensures stopped { EndsBefore G.Semiring.ops G.Gauge.delays (length strip.old) (W.WaitingList.limit list.old) file.now (view_of board.entry) (view_at board.exit) result }
    ensures blank { strip.new ≡ replicate (length strip.old) 0 }
    ensures empty { Empty (W.WaitingList.waits list.new) }
    ensures limit { W.WaitingList.limit list.new ≡ W.WaitingList.limit list.old }
{
    let marks = Marks { cells: strip };
    list.clear();
    check_script(&board, marks.cells.len(), list.limit(), file)?;
    lend!(board => take_fields(board, list, marks.cells, file))
}
