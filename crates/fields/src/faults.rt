ghost use Rattle.std.specs.Prelude.{◌≡◌};
ghost use Rattle.fields.specs.Faults.{refusal_of};

use fault::cause::Cause;
use fault::refusal::Refusal;

/// What a field lacks; `at` is the place of its tag.
#[derive(Clone, Copy, PartialEq, Eq, Debug)]
pub enum FieldFault {
    UnknownTag { at: usize },
    CutOff { at: usize },
    WrongLength { at: usize },
    Misplaced { at: usize },
}

/// The fault as a refusal: one cause for all of them, at the tag.
impl From<FieldFault> for Refusal {
    ghost from_gives = { λ f r. r ≡ refusal_of f };

    fn from(fault: FieldFault) -> Refusal {
        match fault {
            FieldFault::UnknownTag { at }
            | FieldFault::CutOff { at }
            | FieldFault::WrongLength { at }
            | FieldFault::Misplaced { at } => Refusal {
                cause: Cause::BadField,
                place: at,
            },
        }
    }
}
