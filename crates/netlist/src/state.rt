use crate::signals::Signals;
use crate::stage::Stage;

/// How far the lines of a netlist have come, and the signals so far.
// The text stays a parameter beside it: as a field, each method would have to promise that it stays the same.
#[derive(Drop)]
pub struct State {
    pub stage: Stage,
    pub signals: Signals,
}
