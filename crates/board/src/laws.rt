// What holds of every run.
ghost use Rattle.board.specs.Laws.{ChainsFollow, RunsFollow, StoppedScripts};

use gauge::gauges::Gauge;

/// Any chain of calls, each with a list and a strip lent anew, follows the book.
pub fn chains_follow_the_book<G: Gauge>()
    ensures { ChainsFollow G.Semiring.ops G.Gauge.delays }
{}

/// After any chain of calls on an opened board, each with a list and a strip lent anew, board and answers are the book's.
pub fn runs_follow_the_book<G: Gauge>()
    ensures { RunsFollow G.Semiring.ops G.Gauge.delays }
{}

/// A script that stops at a field leaves a board that the script of the bytes before that field leaves.
pub fn stopped_scripts_end_there<G: Gauge>()
    ensures { StoppedScripts G.Semiring.ops G.Gauge.delays }
{}
