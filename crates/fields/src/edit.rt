ghost use Rattle.fields.specs.Forms.{edit_form};
ghost use Rattle.fields.specs.Says.{edit_of};
ghost use Rattle.fields.specs.Written.{written_edit};

use crate::faults::FieldFault;
use crate::field::{Field, stray_tag};
use crate::says::Says;
use crate::words::read_times;
use weights::times::Times;

/// What a field of a script says.
#[derive(Clone, Copy, PartialEq, Eq, Debug)]
pub enum Edit {
    /// 0x11: other delays for a pin of the gate that drives the signal `gate`.
    SetDelay { gate: u16, pin: u8, times: Times },
    /// 0x12: other start times for a source.
    SetStart { source: u16, times: Times },
    /// 0x13: the pin is fed by the signal `feeder`.
    Rewire { gate: u16, pin: u8, feeder: u16 },
    /// 0x14: the pin's wire is cut.
    Cut { gate: u16, pin: u8 },
}

impl Says for Edit {
    ghost says = { edit_of };

    ghost written = { written_edit };

    fn decode(field: Field<'_>) -> Result<Edit, FieldFault> {
        let wrong = FieldFault::WrongLength { at: field.at };
        // Tags stay bytes: an enum with TryFrom would name each twice more before this match.
        match (field.tag, field.value) {
            (0x11, [gate, pin, times @ ..]) => Ok(Edit::SetDelay {
                gate: u16::from(*gate),
                pin: *pin,
                times: read_times(times).ok_or(wrong)?,
            }),
            (0x12, [source, times @ ..]) => Ok(Edit::SetStart {
                source: u16::from(*source),
                times: read_times(times).ok_or(wrong)?,
            }),
            (0x13, [gate, pin, feeder]) => Ok(Edit::Rewire {
                gate: u16::from(*gate),
                pin: *pin,
                feeder: u16::from(*feeder),
            }),
            (0x14, [gate, pin]) => Ok(Edit::Cut {
                gate: u16::from(*gate),
                pin: *pin,
            }),
            (0x11..=0x14, _) => Err(wrong),
            (tag, _) => Err(stray_tag(tag, field.at)),
        }
    }

    ghost form = { edit_form };
}
