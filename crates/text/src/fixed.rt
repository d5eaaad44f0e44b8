// Words that stand for themselves.
ghost use Rattle.std.specs.Prelude.{◌≡◌};
ghost use Rattle.text.specs.Words.{one_of, latch_types, initial_values, command_named};

use crate::word::Command;

/// The command that the word is, if any.
pub fn command_named(word: &[u8]) -> Option<Command>
    ensures { result ≡ command_named word.now }
{
    match word {
        b".model" => Some(Command::Model),
        b".inputs" => Some(Command::Inputs),
        b".outputs" => Some(Command::Outputs),
        b".names" => Some(Command::Names),
        b".latch" => Some(Command::Latch),
        b".end" => Some(Command::End),
        _ => None,
    }
}

pub fn is_latch_type(word: &[u8]) -> bool
    ensures { result ≡ one_of latch_types word.now }
{
    matches!(word, b"fe" | b"re" | b"ah" | b"al" | b"as")
}

pub fn is_initial_value(word: &[u8]) -> bool
    ensures { result ≡ one_of initial_values word.now }
{
    matches!(word, b"0" | b"1" | b"2" | b"3")
}
