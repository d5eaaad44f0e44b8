// What the fields of a file say.
ghost use Rattle.std.specs.Prelude.{◌≡◌, ℕ, List, Result};
ghost use Rattle.fields.specs.declared.faults.FieldFault.{FieldFault};
ghost use Rattle.fields.specs.Fields.{Content, content_of};
ghost use Rattle.fields.specs.Forms.{Form};

use crate::faults::FieldFault;
use crate::field::Field;

/// What a field of one kind of file says (`says`), and the bytes that say it (`written`).
pub trait Says: Copy {
    ghost says: { Content → Result Self FieldFault };

    ghost written: { Self → List ℕ };

    /// What a field says in such a file.
    fn decode(field: Field<'_>) -> Result<Self, FieldFault>
        ensures { result ≡ says (content_of field.entry) };

    ghost form: { Form says written };
}
