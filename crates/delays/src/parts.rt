// What a delay table may name, and the times that it may give.
ghost use Rattle.std.specs.Prelude.{◌≡◌};
ghost use Rattle.delays.specs.Outlines.{Pin, Source, outline_of, has};
ghost use Rattle.delays.specs.Tables.{too_early};

use network::network::Network;
use weights::times::Times;

/// Whether the signal is there and its gate has the pin.
pub fn has_pin(network: &Network, gate: usize, pin: usize) -> bool
    ensures { result ≡ has (outline_of network.now) (Pin gate pin) }
{
    gate < network.size() && pin < network.pin_count(gate)
}

/// Whether the signal is there and is a source.
pub fn has_source(network: &Network, source: usize) -> bool
    ensures { result ≡ has (outline_of network.now) (Source source) }
{
    source < network.size() && network.is_source(source)
}

/// Whether an early time is above the late one at its edge.
pub fn is_too_early(times: Times) -> bool
    ensures { result ≡ too_early times }
{
    times.early_rise > times.late_rise || times.early_fall > times.late_fall
}
