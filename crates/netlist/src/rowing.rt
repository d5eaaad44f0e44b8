// Rows of the gate that came last.
ghost use Rattle.std.specs.Prelude.{◌≡◌, ◌∷◌};
ghost use Rattle.text.specs.Views.{piece_of};
ghost use Rattle.netlist.specs.Statements as statement;
ghost use Rattle.netlist.specs.Statements.{row_of};
ghost use Rattle.netlist.specs.Views.{pieces};
ghost use Rattle.netlist.specs.Outcomes.{row_in, state_on, reading_on, first_judged};

use crate::netlist_fault::NetlistFault;
use crate::spans::word_at;
use crate::state::State;
use fault::cause::Cause;
use network::span::Span;
use rows::row::Row;
use text::word::Word;

// The marks and the last word, or the last word alone.
fn row_of<'a>(text: &'a [u8], first: Word<'a>, rest: &[Span]) -> Option<Row<'a>>
    ensures { row_in result ≡ row_of (piece_of first.entry ∷ pieces text.now rest.now) }
{
    match rest {
        [] => Some(Row {
            marks: &[],
            value: first.text,
        }),
        [value] => Some(Row {
            marks: first.text,
            value: word_at(text, *value).text,
        }),
        _ => None,
    }
}

impl State {
    /// A line whose first word has no dot in front.
    pub fn read_row<'a>(
        &mut self,
        text: &'a [u8],
        first: Word<'a>,
        rest: &[Span],
    ) -> Result<(), NetlistFault>
        ensures { reading_on text.now self.new result ≡ first_judged (state_on text.now self.old) first.entry.at (statement.row (row_of (piece_of first.entry ∷ pieces text.now rest.now))) }
    {
        let Some(row) = row_of(text, first, rest) else {
            return Err(NetlistFault::new(Cause::BadRow, first.at));
        };
        if !self.signals.row_stands(self.stage, row) {
            return Err(NetlistFault::new(Cause::BadRow, first.at));
        }
        self.signals.apply_row(self.stage, row);
        Ok(())
    }
}
