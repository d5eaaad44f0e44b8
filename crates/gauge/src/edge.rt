ghost use Rattle.std.specs.Prelude.{Some};
ghost use Rattle.gauge.specs.Edges.{name_of};

use std::fmt;

/// The way a signal switches.
#[derive(Clone, Copy, PartialEq, Eq, Debug)]
pub enum Edge {
    Rise,
    Fall,
}

impl fmt::Display for Edge {
    ghost output = { λ e. Some (name_of e) };

    fn fmt<W: fmt::Write>(&self, f: &mut fmt::Formatter<W>) -> fmt::Result {
        f.write_str(match self {
            Edge::Rise => "RISE",
            Edge::Fall => "FALL",
        })
    }
}
