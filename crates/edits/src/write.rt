// Writes what an edit changes.
ghost use Rattle.std.specs.Prelude.{◌≡◌, ◌≤◌, true, length};
ghost use Rattle.network.specs.Net.{size};
ghost use Rattle.book.specs.Changes.{edited_by};
ghost use Rattle.book.specs.Judging.{marks};
ghost use Rattle.edits.specs.Checks.{has_parts};
ghost use Rattle.edits.specs.Writes.{Written};

use book::edit_fault::EditFault;
use fields::edit::Edit;
use gauge::gauges::Gauge;
use gauge::matrix::EdgeMatrix;
use gauge::semiring::Semiring;
use network::network::Network;
use opening::cells::{store, weight_at, weight_cell};
use weights::weight::source_start;

// The gate's output or the source that an edit is at.
pub(crate) fn edited_signal(edit: Edit) -> usize
    ensures { result ≡ edited_by edit }
{
    match edit {
        Edit::SetDelay { gate, .. } | Edit::Rewire { gate, .. } | Edit::Cut { gate, .. } => {
            usize::from(gate)
        }
        Edit::SetStart { source, .. } => usize::from(source),
    }
}

// Writes a weight or a start, or gives a pin another feeder; a rewiring that would close a cycle writes nothing.
// Network, starts and weights stay parameters: a struct of them would be made from the board for this call alone.
pub(crate) fn write<G: Gauge>(
    network: &mut Network,
    starts: &mut [EdgeMatrix<G>],
    weights: &mut [EdgeMatrix<G>],
    strip: &mut [u8],
    edit: Edit,
    at: usize,
) -> Result<(), EditFault>
    requires parts { has_parts network.old edit ≡ true }
    requires strip_long { marks edit ≡ true → size network.old ≤ length strip.old }
    ensures { Written G.Semiring.ops G.Gauge.delays edit at network.old network.new starts.old starts.new weights.old weights.new result }
{
    match edit {
        Edit::SetDelay { gate, pin, times } => {
            let weight = weight_at(network, usize::from(gate), usize::from(pin), times);
            store(weights, weight_cell(gate, pin), weight);
            Ok(())
        }
        Edit::SetStart { source, times } => {
            store(starts, usize::from(source), source_start(times));
            Ok(())
        }
        Edit::Rewire { gate, pin, feeder } => network
            .rewire(usize::from(gate), usize::from(pin), feeder, strip)
            .map_err(|_| EditFault::ClosesCycle { at }),
        Edit::Cut { gate, pin } => {
            store(weights, weight_cell(gate, pin), EdgeMatrix::zero());
            Ok(())
        }
    }
}
