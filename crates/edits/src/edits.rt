// The four edits, as direct calls: a refusal's place is 0.
// Board, list and strip stay three parameters: a struct of them is no plainer, since each call would still promise the same of each.
// Each edit stays beside `apply`, which makes any of them, since those that mark nothing are promised for every strip.
ghost use Rattle.std.specs.Prelude.{◌≡◌, ℕ, false, length, replicate};
ghost use Rattle.waiting.specs.Turns.{Empty};
ghost use Rattle.fields.specs.declared.edit.Edit.TheVariants.{SetDelay, SetStart, Rewire, Cut};
ghost use Rattle.opening.specs.Boards.{view_of, view_at};
ghost use Rattle.book.specs.Judging.{marks};
ghost use Rattle.board.specs.Steps.{Stepped, Follows};

use crate::apply::apply_at;
use crate::marks::Marks;
use book::edit_fault::EditFault;
use fields::edit::Edit;
use gauge::gauges::Gauge;
use gauge::matrix::EdgeMatrix;
use opening::board::Board;
use opening::lend;
use waiting::list::WaitingList;
use weights::times::Times;

/// Makes any of the four edits, and answers how many signals were worked.
pub fn apply<G: Gauge, W: WaitingList>(
    board: Board<'_, EdgeMatrix<G>>,
    list: &mut W,
    strip: &mut [u8],
    edit: Edit,
) -> Result<usize, EditFault>
    ensures stepped { Stepped G.Semiring.ops G.Gauge.delays (length strip.old) (W.WaitingList.limit list.old) 0 edit (view_of board.entry) (view_at board.exit) result }
    ensures follows { Follows G.Semiring.ops G.Gauge.delays (length strip.old) (W.WaitingList.limit list.old) 0 edit (view_of board.entry) (view_at board.exit) result }
    ensures blank { strip.new ≡ replicate (length strip.old) 0 }
    ensures empty { Empty (W.WaitingList.waits list.new) }
    ensures limit { W.WaitingList.limit list.new ≡ W.WaitingList.limit list.old }
{
    let marks = Marks { cells: strip };
    lend!(board => apply_at(board, list, marks.cells, edit, 0))
}

// Makes an edit that marks nothing, so that no strip is lent.
fn apply_unmarked<G: Gauge, W: WaitingList>(
    board: Board<'_, EdgeMatrix<G>>,
    list: &mut W,
    edit: Edit,
) -> Result<usize, EditFault>
    requires { marks edit ≡ false }
    ensures stepped { (strip : ℕ) → Stepped G.Semiring.ops G.Gauge.delays strip (W.WaitingList.limit list.old) 0 edit (view_of board.entry) (view_at board.exit) result }
    ensures follows { (strip : ℕ) → Follows G.Semiring.ops G.Gauge.delays strip (W.WaitingList.limit list.old) 0 edit (view_of board.entry) (view_at board.exit) result }
    ensures empty { Empty (W.WaitingList.waits list.new) }
    ensures limit { W.WaitingList.limit list.new ≡ W.WaitingList.limit list.old }
{
    let mut no_strip = [];
    lend!(board => apply_at(board, list, &mut no_strip, edit, 0))
}

/// Renews the weight of a gate's pin by other delays.
pub fn set_delay<G: Gauge, W: WaitingList>(
    board: Board<'_, EdgeMatrix<G>>,
    list: &mut W,
    gate: u16,
    pin: u8,
    times: Times,
) -> Result<usize, EditFault>
    ensures stepped { (strip : ℕ) → Stepped G.Semiring.ops G.Gauge.delays strip (W.WaitingList.limit list.old) 0 (SetDelay gate pin times) (view_of board.entry) (view_at board.exit) result }
    ensures follows { (strip : ℕ) → Follows G.Semiring.ops G.Gauge.delays strip (W.WaitingList.limit list.old) 0 (SetDelay gate pin times) (view_of board.entry) (view_at board.exit) result }
    ensures empty { Empty (W.WaitingList.waits list.new) }
    ensures limit { W.WaitingList.limit list.new ≡ W.WaitingList.limit list.old }
{
    lend!(board => apply_unmarked(board, list, Edit::SetDelay { gate, pin, times }))
}

/// Renews the start of a source.
pub fn set_start<G: Gauge, W: WaitingList>(
    board: Board<'_, EdgeMatrix<G>>,
    list: &mut W,
    source: u16,
    times: Times,
) -> Result<usize, EditFault>
    ensures stepped { (strip : ℕ) → Stepped G.Semiring.ops G.Gauge.delays strip (W.WaitingList.limit list.old) 0 (SetStart source times) (view_of board.entry) (view_at board.exit) result }
    ensures follows { (strip : ℕ) → Follows G.Semiring.ops G.Gauge.delays strip (W.WaitingList.limit list.old) 0 (SetStart source times) (view_of board.entry) (view_at board.exit) result }
    ensures empty { Empty (W.WaitingList.waits list.new) }
    ensures limit { W.WaitingList.limit list.new ≡ W.WaitingList.limit list.old }
{
    lend!(board => apply_unmarked(board, list, Edit::SetStart { source, times }))
}

/// Gives a gate's pin another feeding signal, and keeps its weight.
pub fn rewire<G: Gauge, W: WaitingList>(
    board: Board<'_, EdgeMatrix<G>>,
    list: &mut W,
    strip: &mut [u8],
    gate: u16,
    pin: u8,
    feeder: u16,
) -> Result<usize, EditFault>
    ensures stepped { Stepped G.Semiring.ops G.Gauge.delays (length strip.old) (W.WaitingList.limit list.old) 0 (Rewire gate pin feeder) (view_of board.entry) (view_at board.exit) result }
    ensures follows { Follows G.Semiring.ops G.Gauge.delays (length strip.old) (W.WaitingList.limit list.old) 0 (Rewire gate pin feeder) (view_of board.entry) (view_at board.exit) result }
    ensures blank { strip.new ≡ replicate (length strip.old) 0 }
    ensures empty { Empty (W.WaitingList.waits list.new) }
    ensures limit { W.WaitingList.limit list.new ≡ W.WaitingList.limit list.old }
{
    let marks = Marks { cells: strip };
    let edit = Edit::Rewire { gate, pin, feeder };
    lend!(board => apply_at(board, list, marks.cells, edit, 0))
}

/// Makes the weight of a gate's pin zero, until a delay is set.
pub fn cut<G: Gauge, W: WaitingList>(
    board: Board<'_, EdgeMatrix<G>>,
    list: &mut W,
    gate: u16,
    pin: u8,
) -> Result<usize, EditFault>
    ensures stepped { (strip : ℕ) → Stepped G.Semiring.ops G.Gauge.delays strip (W.WaitingList.limit list.old) 0 (Cut gate pin) (view_of board.entry) (view_at board.exit) result }
    ensures follows { (strip : ℕ) → Follows G.Semiring.ops G.Gauge.delays strip (W.WaitingList.limit list.old) 0 (Cut gate pin) (view_of board.entry) (view_at board.exit) result }
    ensures empty { Empty (W.WaitingList.waits list.new) }
    ensures limit { W.WaitingList.limit list.new ≡ W.WaitingList.limit list.old }
{
    lend!(board => apply_unmarked(board, list, Edit::Cut { gate, pin }))
}
