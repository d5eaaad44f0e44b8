ghost use Rattle.std.specs.Prelude.{Some};
ghost use Rattle.network.specs.Words.{word_of};

use std::fmt;

/// How a pin moves its gate.
#[derive(Clone, Copy, PartialEq, Eq, Debug)]
pub enum Sense {
    /// it raises only
    Positive,
    /// it lowers only
    Negative,
    Both,
    Neither,
}

impl fmt::Display for Sense {
    ghost output = { λ s. Some (word_of s) };

    fn fmt<W: fmt::Write>(&self, f: &mut fmt::Formatter<W>) -> fmt::Result {
        f.write_str(match self {
            Sense::Positive => "POSITIVE",
            Sense::Negative => "NEGATIVE",
            Sense::Both => "BOTH",
            Sense::Neither => "NEITHER",
        })
    }
}
