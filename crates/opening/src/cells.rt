// What stands in a cell for a signal or a pin.
ghost use Rattle.std.specs.Prelude.{◌≡◌, ◌+◌, ◌*◌, slice_set};
ghost use Rattle.opening.specs.Cells.{start_at, driver_weight, weight_at};

use gauge::gauges::Gauge;
use gauge::matrix::EdgeMatrix;
use gauge::semiring::Semiring;
use network::network::Network;
use network::signal::Driver;
use weights::times::Times;
use weights::weight::{pin_weight, source_start};

/// Writes one cell, if there is one.
pub fn store<V: Copy>(cells: &mut [V], cell: usize, value: V)
    ensures { cells.new ≡ slice_set cells.old cell value }
{
    // By index: a slice's `get_mut` says nothing of the cells after the write, so `returns-in-Some` stayed open.
    if cell < cells.len() {
        cells[cell] = value;
    }
}

/// The cell of a pin's weight.
// Gate and pin stay two numbers, as the files give them.
pub fn weight_cell(gate: u16, pin: u8) -> usize
    ensures { result ≡ 4 * gate + pin }
{
    4 * usize::from(gate) + usize::from(pin)
}

/// The start of a signal with these times; zero where it is no source.
pub fn start_at<G: Gauge>(network: &Network, signal: usize, times: Times) -> EdgeMatrix<G>
    ensures { result ≡ start_at G.Semiring.ops G.Gauge.delays network.now signal times }
{
    if network.is_source(signal) {
        source_start(times)
    } else {
        EdgeMatrix::zero()
    }
}

// The weight of a driver's pin with these times; zero where it has no such pin.
fn driver_weight<G: Gauge>(driver: Driver, pin: usize, times: Times) -> EdgeMatrix<G>
    ensures { result ≡ driver_weight G.Semiring.ops G.Gauge.delays driver pin times }
{
    match driver {
        Driver::Gated(gate) if pin < usize::from(gate.pin_count) => {
            pin_weight(gate.raises(pin), gate.lowers(pin), times)
        }
        Driver::Undriven | Driver::Input | Driver::Latched(_) | Driver::Gated(_) => {
            EdgeMatrix::zero()
        }
    }
}

/// The weight of a signal's pin with these times; zero where there is no such pin.
pub fn weight_at<G: Gauge>(
    network: &Network,
    signal: usize,
    pin: usize,
    times: Times,
) -> EdgeMatrix<G>
    ensures { result ≡ weight_at G.Semiring.ops G.Gauge.delays network.now signal pin times }
{
    let driver = network.driver(signal).unwrap_or(Driver::Undriven);
    driver_weight(driver, pin, times)
}
