ghost use Rattle.std.specs.Prelude.{◌≡◌, length, nat_lt};
ghost use Rattle.fault.specs.Limit.{max_bytes};
ghost use Rattle.fields.specs.Fields.{field_at, field_from, seen, seen_next, stray_fault};

use crate::faults::FieldFault;
use fault::limit::MAX_BYTES;

/// A field of a file: its tag, its value, and the place of the tag.
#[derive(Clone, Copy)]
pub struct Field<'a> {
    pub tag: u8,
    pub value: &'a [u8],
    pub at: usize,
}

/// Whether a file has more bytes than it may have.
pub fn too_long(file: &[u8]) -> bool
    ensures { result ≡ nat_lt max_bytes (length file.now) }
{
    file.len() > MAX_BYTES
}

/// Opens the field at the front of the bytes that a file has from the place `at` on.
pub fn open_field(rest: &[u8], at: usize) -> Result<Field<'_>, FieldFault>
    ensures { seen result ≡ field_at rest.now at }
{
    let [tag, high, low, rest @ ..] = rest else {
        return Err(FieldFault::CutOff { at });
    };
    let length = usize::from(u16::from_be_bytes([*high, *low]));
    let value = rest.get(..length).ok_or(FieldFault::CutOff { at })?;
    Ok(Field {
        tag: *tag,
        value,
        at,
    })
}

/// The field at a place of a file, and the place after it. At the file's end and past it the field is cut off.
pub fn field_at(file: &[u8], at: usize) -> Result<(Field<'_>, usize), FieldFault>
    ensures { seen_next result ≡ field_from file.now at }
{
    let rest = file.get(at..).ok_or(FieldFault::CutOff { at })?;
    let field = open_field(rest, at)?;
    Ok((field, at + 3 + field.value.len()))
}

/// What a tag is where its file has no such field: misplaced, or unknown to both files.
// Tags stay bytes here too: an enum with TryFrom would name each twice more before this match.
pub(crate) fn stray_tag(tag: u8, at: usize) -> FieldFault
    ensures { result ≡ stray_fault tag at }
{
    match tag {
        0x01..=0x03 | 0x11..=0x14 => FieldFault::Misplaced { at },
        _ => FieldFault::UnknownTag { at },
    }
}
