/// A wire into a signal: the signal that it comes from, and the cell of its weight.
#[derive(Clone, Copy)]
pub struct Tap {
    pub from: usize,
    pub cell: usize,
}
