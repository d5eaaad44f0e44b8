// Judges an edit but for cycles, and writes nothing.
ghost use Rattle.std.specs.Prelude.{◌≡◌};
ghost use Rattle.opening.specs.Boards.{view_of};
ghost use Rattle.book.specs.Answers.{unless};
ghost use Rattle.book.specs.Judging.{marks, crosses};
ghost use Rattle.edits.specs.Checks.{has_parts, checked};

use book::edit_fault::EditFault;
use delays::parts::{has_pin, has_source, is_too_early};
use fields::edit::Edit;
use network::network::Network;
use opening::board::Board;

// Does the network have what the edit names?
fn has_parts(network: &Network, edit: Edit) -> bool
    ensures { result ≡ has_parts network.now edit }
{
    match edit {
        Edit::SetDelay { gate, pin, .. } | Edit::Cut { gate, pin } => {
            has_pin(network, usize::from(gate), usize::from(pin))
        }
        Edit::SetStart { source, .. } => has_source(network, usize::from(source)),
        Edit::Rewire { gate, pin, feeder } => {
            has_pin(network, usize::from(gate), usize::from(pin))
                && usize::from(feeder) < network.size()
        }
    }
}

// Is an early time of the edit above the late one at its edge?
fn times_cross(edit: Edit) -> bool
    ensures { result ≡ crosses edit }
{
    match edit {
        Edit::SetDelay { times, .. } | Edit::SetStart { times, .. } => is_too_early(times),
        Edit::Rewire { .. } | Edit::Cut { .. } => false,
    }
}

// Does the edit mark what a signal reaches?
fn uses_strip(edit: Edit) -> bool
    ensures { result ≡ marks edit }
{
    matches!(edit, Edit::Rewire { .. })
}

// Room in the tables and the strip first, then the limit, then what the edit names, then its times.
pub(crate) fn check<V>(
    board: &Board<'_, V>,
    strip: usize,
    limit: usize,
    at: usize,
    edit: Edit,
) -> Result<(), EditFault>
    ensures { result ≡ unless (checked (view_of board.now) strip limit at edit) tt }
{
    board.check_room(uses_strip(edit).then_some(strip), limit)?;
    if !has_parts(board.network, edit) {
        return Err(EditFault::NoSuchPart { at });
    }
    if times_cross(edit) {
        return Err(EditFault::EarlyAboveLate { at });
    }
    Ok(())
}
