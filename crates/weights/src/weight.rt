ghost use Rattle.std.specs.Prelude.{◌≡◌};
ghost use Rattle.weights.specs.Weights.{value_at, weight_of, start_of};

use crate::times::Times;
use gauge::edge::Edge;
use gauge::gauges::Gauge;
use gauge::matrix::EdgeMatrix;

/// The weight of a pin that raises or lowers its gate, or both or neither, with these delays.
// Two flags, and no enum: `Sense` of crate network has them as one, and a caller with flags would need that crate to name it.
pub fn pin_weight<G: Gauge>(raises: bool, lowers: bool, times: Times) -> EdgeMatrix<G>
    ensures { result ≡ weight_of G.Semiring.ops G.Gauge.delays raises lowers times }
{
    EdgeMatrix::from_fn(|before, after| {
        let moves = if before == after { raises } else { lowers };
        if moves {
            value_at(times, after)
        } else {
            G::zero()
        }
    })
}

/// The start of a source with these start times.
pub fn source_start<G: Gauge>(times: Times) -> EdgeMatrix<G>
    ensures { result ≡ start_of G.Semiring.ops G.Gauge.delays times }
{
    pin_weight(true, false, times)
}

/// The value of the times at an edge.
fn value_at<G: Gauge>(times: Times, edge: Edge) -> G
    ensures { result ≡ value_at G.Gauge.delays times edge }
{
    match edge {
        Edge::Rise => G::from_delays(times.late_rise, times.early_rise),
        Edge::Fall => G::from_delays(times.late_fall, times.early_fall),
    }
}
