use crate::span::Span;

/// Signals that make no network: the lowest one on a cycle, and its name.
#[derive(Clone, Copy, PartialEq, Eq, Debug)]
pub struct Cyclic {
    pub lowest: usize,
    pub name: Span,
}
