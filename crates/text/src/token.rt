// Words by their beginning.
ghost use Rattle.std.specs.Prelude.{◌≡◌};
ghost use Rattle.text.specs.Words.{lexeme_of};
ghost use Rattle.text.specs.Views.{piece_of, lexeme_in};

use crate::fixed::command_named;
use crate::word::{Token, Word};

impl<'a> From<Word<'a>> for Token<'a> {
    ghost from_gives = { λ word token. lexeme_in token ≡ lexeme_of (piece_of word) };

    fn from(word: Word<'a>) -> Token<'a> {
        match word.text {
            [b'.', ..] => match command_named(word.text) {
                Some(command) => Token::Keyword(command, word),
                None => Token::Dotted(word),
            },
            _ => Token::Plain(word),
        }
    }
}
