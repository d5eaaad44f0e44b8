// Whether a row may follow a gate's other rows, and the gate with one row more.
ghost use Rattle.std.specs.Prelude.{◌≡◌};
ghost use Rattle.std.specs.List.{list_all};
ghost use Rattle.rows.specs.Rows.{is_mark, is_one, is_bit, agrees, row_fits, with_row};
ghost use Rattle.rows.specs.Views.{row_on, cover_on};

use crate::row::Row;
use crate::settings::with_settings;
use network::gate::Gate;

fn is_mark(b: u8) -> bool
    ensures { result ≡ is_mark b }
{
    matches!(b, b'0' | b'1' | b'-')
}

fn all_marks(marks: &[u8]) -> bool
    ensures { result ≡ list_all is_mark marks.now }
{
    marks.iter().all(|m| is_mark(*m))
}

fn is_one(word: &[u8]) -> bool
    ensures { result ≡ is_one word.now }
{
    matches!(word, b"1")
}

fn is_bit(word: &[u8]) -> bool
    ensures { result ≡ is_bit word.now }
{
    matches!(word, b"0" | b"1")
}

fn agree(last_word: Option<bool>, one: bool) -> bool
    ensures { result ≡ agrees last_word one }
{
    last_word.is_none_or(|last| last == one)
}

/// Whether the gate takes the row: one mark for each pin, and a last word like those of its other rows.
pub fn row_fits(gate: Gate, row: Row<'_>) -> bool
    ensures { result ≡ row_fits gate.pin_count (cover_on gate) (row_on row.entry) }
{
    row.marks.len() == usize::from(gate.pin_count)
        && all_marks(row.marks)
        && is_bit(row.value)
        && agree(gate.last_word, is_one(row.value))
}

/// The gate with one row more.
pub fn with_row(gate: Gate, row: Row<'_>) -> Gate
    ensures pins { result.pins ≡ gate.pins }
    ensures count { result.pin_count ≡ gate.pin_count }
    ensures cover { cover_on result ≡ with_row (row_on row.entry) (cover_on gate) }
{
    // One changed copy: Rattle takes no `..gate` beside the ghost fields of a gate.
    let mut more = gate;
    more.matched = with_settings(gate.matched, row.marks);
    more.last_word = Some(is_one(row.value));
    more
}
