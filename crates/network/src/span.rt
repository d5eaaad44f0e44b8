ghost use Rattle.std.specs.Prelude.{◌≡◌, take, drop};

/// A part of the netlist's text: the place of its first byte, and its length.
#[derive(Clone, Copy, PartialEq, Eq, Debug)]
pub struct Span {
    pub at: usize,
    pub len: usize,
}

impl Span {
    /// The bytes of the text at the span, as far as the text goes.
    pub fn of(self, text: &[u8]) -> &[u8]
        ensures { result.now ≡ take self.len (drop self.at text.now) }
    {
        let rest = text.get(self.at..).unwrap_or_default();
        rest.get(..self.len).unwrap_or(rest)
    }
}
