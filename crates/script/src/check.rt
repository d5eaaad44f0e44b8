// Judges a script before its first field, and writes nothing.
ghost use Rattle.std.specs.Prelude.{◌≡◌};
ghost use Rattle.opening.specs.Boards.{view_of};
ghost use Rattle.book.specs.Answers.{unless, judge_script};
ghost use Rattle.gauge.specs.Matrix.{edge_ops};
ghost use Rattle.board.specs.Books.{book_of, lent_of};

use book::script_fault::ScriptFault;
use fields::field::too_long;
use gauge::gauges::Gauge;
use gauge::matrix::EdgeMatrix;
use opening::board::Board;

// Room first, then the file's length.
pub(crate) fn check_script<G: Gauge>(
    board: &Board<'_, EdgeMatrix<G>>,
    strip: usize,
    limit: usize,
    file: &[u8],
) -> Result<(), ScriptFault>
    ensures { result ≡ unless (judge_script G.Semiring.ops G.Gauge.delays (lent_of (view_of board.now) strip limit) (book_of (edge_ops G.Semiring.ops) (view_of board.now)) file.now) tt }
{
    board.check_room(Some(strip), limit)?;
    if too_long(file) {
        return Err(ScriptFault::FileTooLong);
    }
    Ok(())
}
