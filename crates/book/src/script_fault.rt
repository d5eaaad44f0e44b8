ghost use Rattle.std.specs.Prelude.{◌≡◌};
ghost use Rattle.book.specs.Faults.{no_room, script_refusal};
ghost use Rattle.book.specs.declared.script_fault.ScriptFault.TheVariants.{Field, Edit};

use crate::edit_fault::EditFault;
use fault::cause::Cause;
use fault::limit::MAX_BYTES;
use fault::refusal::Refusal;
use fault::room_fault::RoomFault;
use fields::faults::FieldFault;

/// Why a call is refused. What a field lacks and why an edit is refused are kept whole.
#[derive(Clone, Copy, PartialEq, Eq, Debug)]
pub enum ScriptFault {
    FileTooLong,
    Field(FieldFault),
    Edit(EditFault),
}

impl From<FieldFault> for ScriptFault {
    ghost from_gives = { λ f r. r ≡ Field f };

    fn from(fault: FieldFault) -> ScriptFault {
        ScriptFault::Field(fault)
    }
}

impl From<EditFault> for ScriptFault {
    ghost from_gives = { λ f r. r ≡ Edit f };

    fn from(fault: EditFault) -> ScriptFault {
        ScriptFault::Edit(fault)
    }
}

impl From<RoomFault> for ScriptFault {
    ghost from_gives = { λ f r. r ≡ Edit (no_room f) };

    fn from(fault: RoomFault) -> ScriptFault {
        ScriptFault::Edit(fault.into())
    }
}

/// The fault as a refusal: its cause, and its place in the script.
impl From<ScriptFault> for Refusal {
    ghost from_gives = { λ f r. r ≡ script_refusal f };

    fn from(fault: ScriptFault) -> Refusal {
        match fault {
            ScriptFault::FileTooLong => Refusal {
                cause: Cause::FileTooLong,
                place: MAX_BYTES,
            },
            ScriptFault::Field(fault) => fault.into(),
            ScriptFault::Edit(fault) => fault.into(),
        }
    }
}
