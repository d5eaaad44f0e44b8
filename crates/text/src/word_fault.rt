ghost use Rattle.std.specs.Prelude.{◌≡◌};
ghost use Rattle.text.specs.Refusals.{refusal_of};

use fault::cause::Cause;
use fault::refusal::Refusal;

/// What is wrong with a word, or with a byte of a line, and its place.
#[derive(Clone, Copy, PartialEq, Eq, Debug)]
pub enum WordFault {
    /// a byte that may not stand in a netlist
    BadByte(usize),
    /// a name of over 32 bytes
    LongName(usize),
}

impl From<WordFault> for Refusal {
    ghost from_gives = { λ f r. r ≡ refusal_of f };

    fn from(fault: WordFault) -> Refusal {
        match fault {
            WordFault::BadByte(place) => Refusal {
                cause: Cause::BadByte,
                place,
            },
            WordFault::LongName(place) => Refusal {
                cause: Cause::LongName,
                place,
            },
        }
    }
}
