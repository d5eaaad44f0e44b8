// Lines and words of a text.
ghost use Rattle.std.specs.Prelude.{◌≡◌, ◌+◌, ◌-◌, ◌<◌, ◌≤◌, not, [], ◌∷◌, length, take, drop, position, IfSome, MatchOption};
ghost use Rattle.std.specs.List.{prefix_len};
ghost use Rattle.text.specs.Text.{newline, blank, solid, bad, words, bad_places};
ghost use Rattle.text.specs.Words.{long_names};
ghost use Rattle.text.specs.Refusals.{refusing};
ghost use Rattle.text.specs.Views.{piece_of};
ghost use Rattle.text.specs.declared.word_fault.WordFault.TheVariants.{BadByte, LongName};

use crate::word::Word;
use crate::word_fault::WordFault;

fn is_blank(b: u8) -> bool
    ensures { result ≡ blank b }
{
    matches!(b, b' ' | b'\t' | b'\r')
}

fn is_solid(b: u8) -> bool
    ensures { result ≡ solid b }
{
    !is_blank(b) && b != b'\n' && b != b'#'
}

fn is_bad(b: u8) -> bool
    ensures { result ≡ bad b }
{
    b == b'\\' || !matches!(b, b'\t' | b'\n' | b'\r' | b' '..=b'~')
}

// Three functions, one for each test: one over any test would have to say first what the test answers.
fn line_len(text: &[u8]) -> usize
    ensures is { result ≡ prefix_len (λ b. not (newline b)) text.now }
    ensures within { result ≤ length text.now }
{
    text.iter().take_while(|b| **b != b'\n').count()
}

fn blanks_len(text: &[u8]) -> usize
    ensures is { result ≡ prefix_len blank text.now }
    ensures within { result ≤ length text.now }
{
    text.iter().take_while(|b| is_blank(**b)).count()
}

fn word_len(text: &[u8]) -> usize
    ensures is { result ≡ prefix_len solid text.now }
    ensures within { result ≤ length text.now }
{
    text.iter().take_while(|b| is_solid(**b)).count()
}

/// The place of the first byte that a netlist may not hold.
fn bad_at(text: &[u8]) -> Option<usize>
    ensures is { result ≡ position bad text.now }
    ensures within { IfSome result (λ i. i < length text.now) }
{
    text.iter().position(|b| is_bad(*b))
}

/// The place of the byte 10 that closes the line, or the text's length.
pub fn line_end(text: &[u8], from: usize) -> usize
    ensures { result ≡ from + prefix_len (λ b. not (newline b)) (drop from text.now) }
{
    text.get(from..).map_or(from, |rest| from + line_len(rest))
}

/// Refuses the first byte from `from` up to `end` that a netlist may not hold, also in a comment.
pub fn check_bytes(text: &[u8], from: usize, end: usize) -> Result<(), WordFault>
    ensures { result ≡ refusing BadByte (bad_places from (take (end - from) (drop from text.now))) }
{
    let Some(line) = text.get(from..end.min(text.len())) else {
        return Ok(());
    };
    match bad_at(line) {
        Some(skipped) => Err(WordFault::BadByte(from + skipped)),
        None => Ok(()),
    }
}

/// Refuses a name of over 32 bytes.
pub fn check_name(name: Word<'_>) -> Result<(), WordFault>
    ensures { result ≡ refusing LongName (long_names (piece_of name.entry ∷ [])) }
{
    if name.text.len() > 32 {
        return Err(WordFault::LongName(name.at));
    }
    Ok(())
}

/// The next word of the line that goes on at `from`.
pub fn next_word<'a>(text: &'a [u8], from: usize) -> Option<Word<'a>>
    ensures found { MatchOption result (words from (drop from text.now) ≡ []) (λ w. words from (drop from text.now) ≡ piece_of w ∷ words (w.at + length w.text.now) (drop (w.at + length w.text.now) text.now)) }
    ensures part { IfSome result (λ w. w.text.now ≡ take (length w.text.now) (drop w.at text.now)) }
    ensures within { IfSome result (λ w. (from ≤ w.at) × (0 < length w.text.now) × (w.at + length w.text.now ≤ length text.now)) }
{
    let start = from + blanks_len(text.get(from..)?);
    let end = start + word_len(text.get(start..)?);
    (start < end).then(|| Word {
        text: &text[start..end],
        at: start,
    })
}
