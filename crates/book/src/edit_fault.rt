ghost use Rattle.std.specs.Prelude.{◌≡◌};
ghost use Rattle.book.specs.Faults.{no_room, edit_refusal};

use fault::cause::Cause;
use fault::refusal::Refusal;
use fault::room_fault::RoomFault;

/// Why an edit is refused; `at` is the place of the field's tag, and 0 in a direct call.
// Variants of its own, not Room(RoomFault): callers match them and the definitions name them.
// `at` is 0, not None, in a direct call: the promises of the direct calls name it.
#[derive(Clone, Copy, PartialEq, Eq, Debug)]
pub enum EditFault {
    /// a table of the board or the mark strip has too few cells
    TooShort,
    /// the waiting list's limit is below the number of signals
    LowLimit,
    /// no such signal or pin, or a start for no source
    NoSuchPart { at: usize },
    EarlyAboveLate { at: usize },
    /// the new feeding signal is the gate's own or is reached from it
    ClosesCycle { at: usize },
}

impl From<RoomFault> for EditFault {
    ghost from_gives = { λ f r. r ≡ no_room f };

    fn from(fault: RoomFault) -> EditFault {
        match fault {
            RoomFault::TooShort => EditFault::TooShort,
            RoomFault::LowLimit => EditFault::LowLimit,
        }
    }
}

/// The fault as a refusal: its cause, and its place in the script.
impl From<EditFault> for Refusal {
    ghost from_gives = { λ f r. r ≡ edit_refusal f };

    fn from(fault: EditFault) -> Refusal {
        let (cause, place) = match fault {
            EditFault::TooShort => (Cause::TooShort, 0),
            EditFault::LowLimit => (Cause::LowLimit, 0),
            EditFault::NoSuchPart { at } => (Cause::NoSuchPart, at),
            EditFault::EarlyAboveLate { at } => (Cause::EarlyAboveLate, at),
            EditFault::ClosesCycle { at } => (Cause::Cycle, at),
        };
        Refusal { cause, place }
    }
}
