// Rows of gates.
ghost use Rattle.std.specs.Prelude.{◌≡◌, ℕ, List};
ghost use Rattle.rows.specs.Views.{row_on};
ghost use Rattle.netlist.specs.Faults.{row_joins, row_stands};
ghost use Rattle.netlist.specs.Effects.{add_row, row_at};
ghost use Rattle.netlist.specs.Views.{driver_on, signal_on, signals_in};

use crate::signals::Signals;
use crate::stage::Stage;
use network::signal::{Driver, Signal};
use rows::fitting::{row_fits, with_row};
use rows::row::Row;

fn row_joins(driver: Driver, row: Row<'_>) -> bool
    ensures { (t : List ℕ) → result ≡ row_joins (driver_on t driver) (row_on row.entry) }
{
    matches!(driver, Driver::Gated(gate) if row_fits(gate, row))
}

fn add_row(signal: Signal, row: Row<'_>) -> Signal
    ensures { (t : List ℕ) → signal_on t result ≡ add_row (row_on row.entry) (signal_on t signal) }
{
    match signal.driver {
        Driver::Gated(gate) => Signal {
            driver: Driver::Gated(with_row(gate, row)),
            ..signal
        },
        Driver::Undriven | Driver::Input | Driver::Latched(_) => signal,
    }
}

impl Signals {
    /// Whether a row may stand here, and fits its gate.
    pub(crate) fn row_stands(&self, stage: Stage, row: Row<'_>) -> bool
        ensures { (t : List ℕ) → result ≡ row_stands stage (signals_in t self.now) (row_on row.entry) }
    {
        match stage {
            // By index: a closure tells nothing of `row_joins`, whose clause is for every text, so `returns-in-Rows` stayed open.
            Stage::Rows(g) => g < self.items.len() && row_joins(self.items[g].driver, row),
            Stage::Before | Stage::Body | Stage::After => false,
        }
    }

    /// Adds the row to the gate that came last.
    pub(crate) fn apply_row(&mut self, stage: Stage, row: Row<'_>)
        ensures { (t : List ℕ) → signals_in t self.new ≡ row_at stage (signals_in t self.old) (row_on row.entry) }
    {
        if let Stage::Rows(g) = stage
            && let Some(signal) = self.items.get_mut(g)
        {
            *signal = add_row(*signal, row);
        }
    }
}
