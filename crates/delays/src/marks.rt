// What the fields so far name.
ghost use Rattle.std.specs.Prelude.{◌≡◌};
ghost use Rattle.delays.specs.Marks.{unmarked};

use network::limit::MAX_SIGNALS;

/// What is named so far: cell 4 × signal + pin for a pin, and a cell for each source.
#[derive(Drop)]
pub(crate) struct Named {
    pub(crate) pins: [bool; 4 * MAX_SIGNALS],
    pub(crate) sources: [bool; MAX_SIGNALS],
}

impl Named {
    /// Nothing is named.
    pub(crate) fn new() -> Named
        ensures { result ≡ unmarked }
    {
        Named {
            pins: [false; 4 * MAX_SIGNALS],
            sources: [false; MAX_SIGNALS],
        }
    }
}
