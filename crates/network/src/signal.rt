use crate::gate::Gate;
use crate::span::Span;

/// A latch: the signal at its data pin, and its other words as they stand in the text.
#[derive(Clone, Copy)]
pub struct Latch {
    pub input: u16,
    /// its type and its control
    pub trigger: Option<(Span, Span)>,
    pub initial: Option<Span>,
}

/// What drives a signal.
// No `Option<Driver>`: every match would unwrap once more, and `Network::driver` is an Option already.
#[derive(Clone, Copy)]
pub enum Driver {
    /// nothing yet, while a netlist is read
    Undriven,
    Input,
    Latched(Latch),
    Gated(Gate),
}

/// A signal: where its name is first mentioned, what drives it, and whether a line of outputs names it or a latch reads it.
#[derive(Clone, Copy)]
pub struct Signal {
    pub name: Span,
    pub driver: Driver,
    pub output: bool,
    pub captured: bool,
}
