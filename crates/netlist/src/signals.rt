// The signals of a netlist while it is read.
ghost use Rattle.std.specs.Prelude.{◌≡◌, ◌≤◌, [], IfOk, vec_len, vec_capacity};
ghost use Rattle.network.specs.Limit.{max_signals};

use network::limit::MAX_SIGNALS;
use network::signal::Signal;
use std::alloc::{AllocError, Global};

mod changes;
mod drivers;
mod gates;
mod mentions;
mod numbers;

/// The signals that the lines so far have mentioned, with room for all that a netlist may have.
#[derive(Drop)]
pub struct Signals {
    items: Vec<Signal>,
    ghost few: { vec_len items ≤ max_signals },
    ghost room: { max_signals ≤ vec_capacity items },
}

impl Signals {
    pub fn new(heap: Global) -> Result<Signals, AllocError>
        ensures { IfOk result (λ s. s.items.items ≡ []) }
    {
        let items = Vec::with_capacity(heap, MAX_SIGNALS)?;
        Ok(Signals { items })
    }

    pub fn clear(&mut self)
        ensures { self.new.items.items ≡ [] }
    {
        self.items.clear();
    }

    /// The signals, as a network takes them.
    pub fn into_inner(self) -> Vec<Signal>
        ensures { result ≡ self.items }
    {
        self.items
    }
}
