/// A word of the text: its bytes, and the place of the first.
#[derive(Clone, Copy)]
pub struct Word<'a> {
    pub text: &'a [u8],
    pub at: usize,
}

/// What a line is, by its first word.
#[derive(Clone, Copy, PartialEq, Eq, Debug)]
pub enum Command {
    Model,
    Inputs,
    Outputs,
    Names,
    Latch,
    End,
}

/// A word by its beginning.
#[derive(Clone, Copy)]
pub enum Token<'a> {
    /// one of the command words
    Keyword(Command, Word<'a>),
    /// any other word with a dot in front
    Dotted(Word<'a>),
    /// a word without a dot in front
    Plain(Word<'a>),
}
