// A word of the text by place and length.
ghost use Rattle.std.specs.Prelude.{◌≡◌};
ghost use Rattle.text.specs.Views.{piece_of};
ghost use Rattle.netlist.specs.Views.{piece_on};

use network::span::Span;
use text::word::Word;

/// The word of the text at the span.
pub fn word_at(text: &[u8], span: Span) -> Word<'_>
    ensures { piece_of result ≡ piece_on text.now span }
{
    Word {
        text: span.of(text),
        at: span.at,
    }
}
