ghost use Rattle.std.specs.Prelude.{◌≡◌};
ghost use Rattle.delays.specs.Faults.{no_room, refusal_of};
ghost use Rattle.delays.specs.declared.faults.DelayFault.TheVariants.{Field};

use fault::cause::Cause;
use fault::limit::MAX_BYTES;
use fault::refusal::Refusal;
use fault::room_fault::RoomFault;
use fields::faults::FieldFault;

/// Why a board is not opened with a delay table; `at` is the place of a field's tag.
// Variants of its own, not Room(RoomFault): callers match them and the definitions name them.
#[derive(Clone, Copy, PartialEq, Eq, Debug)]
pub enum DelayFault {
    /// a table of the board has too few cells
    TooShort,
    /// the waiting list's limit is below the number of signals
    LowLimit,
    FileTooLong,
    /// there is no field
    Empty,
    /// what a field lacks; a clock that is not first and a second one are misplaced
    Field(FieldFault),
    /// no such signal or pin, or a start for no source
    NoSuchPart { at: usize },
    EarlyAboveLate { at: usize },
    NamedTwice { at: usize },
}

impl From<FieldFault> for DelayFault {
    ghost from_gives = { λ f r. r ≡ Field f };

    fn from(fault: FieldFault) -> DelayFault {
        DelayFault::Field(fault)
    }
}

impl From<RoomFault> for DelayFault {
    ghost from_gives = { λ f r. r ≡ no_room f };

    fn from(fault: RoomFault) -> DelayFault {
        match fault {
            RoomFault::TooShort => DelayFault::TooShort,
            RoomFault::LowLimit => DelayFault::LowLimit,
        }
    }
}

/// The fault as a refusal: its cause, and its place in the delay table.
impl From<DelayFault> for Refusal {
    ghost from_gives = { λ f r. r ≡ refusal_of f };

    fn from(fault: DelayFault) -> Refusal {
        let (cause, place) = match fault {
            DelayFault::TooShort => (Cause::TooShort, 0),
            DelayFault::LowLimit => (Cause::LowLimit, 0),
            DelayFault::FileTooLong => (Cause::FileTooLong, MAX_BYTES),
            DelayFault::Empty => (Cause::BadField, 0),
            DelayFault::Field(fault) => return fault.into(),
            DelayFault::NoSuchPart { at } => (Cause::NoSuchPart, at),
            DelayFault::EarlyAboveLate { at } => (Cause::EarlyAboveLate, at),
            DelayFault::NamedTwice { at } => (Cause::NamedTwice, at),
        };
        Refusal { cause, place }
    }
}
