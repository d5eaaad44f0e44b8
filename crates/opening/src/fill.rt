// Fills the tables as an accepted delay table says.
ghost use Rattle.std.specs.Prelude.{◌≡◌, ℕ, ◌*◌, ◌<◌, ◌≤◌, true, length, is_ok, Ok, slice_index_or};
ghost use Rattle.network.specs.Net.{size};
ghost use Rattle.delays.specs.Outlines.{outline_of};
ghost use Rattle.delays.specs.Tables.{table_of};
ghost use Rattle.opening.specs.Cells.{starts_by, weights_by};
ghost use Rattle.opening.specs.Fills.{starts_with, weights_with, after_all};
ghost use Rattle.fields.specs.Lists.{fields};
ghost use Rattle.fields.specs.Says.{entry_of};

use crate::cells::{start_at, store, weight_at, weight_cell};
use fields::entry::Entry;
use fields::read::Fields;
use gauge::gauges::Gauge;
use gauge::matrix::EdgeMatrix;
use network::network::Network;
use weights::times::Times;

// Fills each cell with the value by its number.
fn fill_table<V: Copy, F: Fn(usize) -> V>(cells: &mut [V], value: F)
    requires { F.IsAlwaysCallable value }
    ensures long { length cells.new ≡ length cells.old }
    ensures each { (i : ℕ) (d : V) → i < length cells.old → F.post value i (slice_index_or cells.new i d) }
{
    for (i, cell) in cells.iter_mut().enumerate() {
        *cell = value(i);
    }
}

// Writes what one entry says.
fn fill_entry<G: Gauge>(
    network: &Network,
    entry: Entry,
    starts: &mut [EdgeMatrix<G>],
    weights: &mut [EdgeMatrix<G>],
)
    ensures starts { starts.new ≡ starts_with G.Semiring.ops G.Gauge.delays network.now (Ok entry) starts.old }
    ensures weights { weights.new ≡ weights_with G.Semiring.ops G.Gauge.delays network.now (Ok entry) weights.old }
{
    match entry {
        Entry::Clock(_) => {}
        Entry::Delay { gate, pin, times } => {
            let weight = weight_at(network, usize::from(gate), usize::from(pin), times);
            store(weights, weight_cell(gate, pin), weight);
        }
        Entry::Start { source, times } => {
            let source = usize::from(source);
            store(starts, source, start_at(network, source, times));
        }
    }
}

// Writes what the entries say, one after another.
fn fill_entries<G: Gauge>(
    network: &Network,
    file: &[u8],
    starts: &mut [EdgeMatrix<G>],
    weights: &mut [EdgeMatrix<G>],
)
    ensures starts { starts.new ≡ after_all (starts_with G.Semiring.ops G.Gauge.delays network.now) starts.old (fields entry_of file.now) }
    ensures weights { weights.new ≡ after_all (weights_with G.Semiring.ops G.Gauge.delays network.now) weights.old (fields entry_of file.now) }
{
    for field in Fields::<Entry>::new(file) {
        if let Ok(entry) = field.said {
            fill_entry(network, entry, starts, weights);
        }
    }
}

// Fills starts and weights with what the table says, and with four zeros what it does not name.
// Network, starts and weights stay parameters: a struct of them would be made from the board for this call alone.
pub(crate) fn fill<G: Gauge>(
    network: &Network,
    file: &[u8],
    starts: &mut [EdgeMatrix<G>],
    weights: &mut [EdgeMatrix<G>],
)
    requires accepted { is_ok (table_of (outline_of network.now) file.now) ≡ true }
    requires starts_long { size network.now ≤ length starts.old }
    requires weights_long { 4 * size network.now ≤ length weights.old }
    ensures starts { starts.new ≡ starts_by G.Semiring.ops G.Gauge.delays network.now file.now starts.old }
    ensures weights { weights.new ≡ weights_by G.Semiring.ops G.Gauge.delays network.now file.now weights.old }
{
    let signals = network.size();
    let none = Times::default();
    fill_table(&mut starts[..signals], |signal| {
        start_at(network, signal, none)
    });
    fill_table(&mut weights[..4 * signals], |cell| {
        weight_at(network, cell / 4, cell % 4, none)
    });
    fill_entries(network, file, starts, weights);
}
