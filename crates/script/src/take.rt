// Takes the fields of a script in order.
ghost use Rattle.std.specs.Prelude.{◌≡◌, ◌≤◌, length};
ghost use Rattle.waiting.specs.Turns.{Empty};
ghost use Rattle.fault.specs.Limit.{max_bytes};
ghost use Rattle.fields.specs.Lists.{fields};
ghost use Rattle.fields.specs.Says.{edit_of};
ghost use Rattle.opening.specs.Boards.{view_of, view_at};
ghost use Rattle.board.specs.Runs.{Taken};

use book::script_fault::ScriptFault;
use edits::apply::apply_at;
use fields::edit::Edit;
use fields::read::Fields;
use gauge::gauges::Gauge;
use gauge::matrix::EdgeMatrix;
use opening::board::Board;
use waiting::list::WaitingList;

// Makes the fields' edits up to the first refusal, and answers the sum of their counts.
// Board, list and strip stay parameters, as in edits: each call promises `empty` and `limit` of its own list.
pub(crate) fn take_fields<G: Gauge, W: WaitingList>(
    board: Board<'_, EdgeMatrix<G>>,
    list: &mut W,
    strip: &mut [u8],
    file: &[u8],
) -> Result<usize, ScriptFault>
    requires short { length file.now ≤ max_bytes }
    requires empty { Empty (W.WaitingList.waits list.old) }
    ensures taken { Taken G.Semiring.ops G.Gauge.delays (length strip.old) (W.WaitingList.limit list.old) (fields edit_of file.now) 0 (view_of board.entry) (view_at board.exit) result }
    ensures empty { Empty (W.WaitingList.waits list.new) }
    ensures limit { W.WaitingList.limit list.new ≡ W.WaitingList.limit list.old }
{
    let Board {
        network,
        starts,
        weights,
        values,
    } = board;
    let mut total = 0;
    for field in Fields::<Edit>::new(file) {
        let edit = field.said?;
        // By hand: `lend!` takes its board, and no other place lends one again at each turn.
        let whole = Board {
            network: &mut *network,
            starts: &mut *starts,
            weights: &mut *weights,
            values: &mut *values,
        };
        total += apply_at(whole, list, strip, edit, field.at)?;
    }
    Ok(total)
}
