// What holds of every script: the function's contract is a theorem.
ghost use Rattle.book.specs.Laws.{StopsAsIfEnded};

use gauge::gauges::Gauge;

/// A script that is refused at a field leaves the book as if it had ended just before that field.
pub fn stopped_scripts_end_there<G: Gauge>()
    ensures { StopsAsIfEnded G.Semiring.ops G.Gauge.delays }
{}
