// Names in a line.
ghost use Rattle.std.specs.Prelude.{◌≡◌};
ghost use Rattle.std.specs.Str.{bytes_eq};
ghost use Rattle.text.specs.Refusals.{refusing};
ghost use Rattle.text.specs.Words.{one_of, dotted, long_names};
ghost use Rattle.text.specs.declared.word_fault.WordFault.TheVariants as words;
ghost use Rattle.netlist.specs.Faults.{has_dotted};
ghost use Rattle.netlist.specs.Views.{piece_on, pieces, bytes_of};

use crate::spans::word_at;
use network::span::Span;
use text::scan::check_name;
use text::word::Token;
use text::word_fault::WordFault;

// Text and names stay two parameters: callers hand on parts of a line's words, and would join each part with the text again.
fn is_dotted(text: &[u8], name: Span) -> bool
    ensures { result ≡ dotted (piece_on text.now name).bytes }
{
    !matches!(Token::from(word_at(text, name)), Token::Plain(_))
}

/// Whether one of the names has a dot in front.
pub fn has_dotted(text: &[u8], names: &[Span]) -> bool
    ensures { result ≡ has_dotted (pieces text.now names.now) }
{
    names.iter().any(|w| is_dotted(text, *w))
}

/// Refuses the first of the names that is too long.
pub fn check_names(text: &[u8], names: &[Span]) -> Result<(), WordFault>
    ensures { result ≡ refusing words.LongName (long_names (pieces text.now names.now)) }
{
    for w in names {
        check_name(word_at(text, *w))?;
    }
    Ok(())
}

/// Whether a word is this name.
// Cut from the text here, not by `word_at`: a name is compared with each signal's before it, and `Span::of` costs half as much again.
pub fn is_named(text: &[u8], word: Span, name: &[u8]) -> bool
    ensures { result ≡ bytes_eq (piece_on text.now word).bytes name.now }
{
    text.get(word.at..).map_or(name.is_empty(), |rest| {
        rest.get(..word.len).unwrap_or(rest) == name
    })
}

/// Whether the name is one of these.
pub fn is_among(text: &[u8], names: &[Span], name: Span) -> bool
    ensures { result ≡ one_of (bytes_of text.now names.now) (piece_on text.now name).bytes }
{
    let name = word_at(text, name).text;
    names.iter().any(|w| is_named(text, *w, name))
}
