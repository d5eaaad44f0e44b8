ghost use Rattle.fields.specs.Forms.{entry_form};
ghost use Rattle.fields.specs.Says.{entry_of};
ghost use Rattle.fields.specs.Written.{written_entry};

use crate::faults::FieldFault;
use crate::field::{Field, stray_tag};
use crate::says::Says;
use crate::words::{read_clock, read_times};
use weights::times::Times;

/// The clock's period, and the setup and hold times, in picoseconds.
#[derive(Clone, Copy, PartialEq, Eq, Debug)]
pub struct Clock {
    pub period: u32,
    pub setup: u32,
    pub hold: u32,
}

/// What a field of the delay table says.
#[derive(Clone, Copy, PartialEq, Eq, Debug)]
pub enum Entry {
    /// 0x01: the clock.
    Clock(Clock),
    /// 0x02: the delays of a pin of the gate that drives the signal `gate`.
    Delay { gate: u16, pin: u8, times: Times },
    /// 0x03: the start times of a source.
    Start { source: u16, times: Times },
}

impl Says for Entry {
    ghost says = { entry_of };

    ghost written = { written_entry };

    fn decode(field: Field<'_>) -> Result<Entry, FieldFault> {
        let wrong = FieldFault::WrongLength { at: field.at };
        // Tags stay bytes: an enum with TryFrom would name each twice more before this match.
        match (field.tag, field.value) {
            (0x01, clock) => Ok(Entry::Clock(read_clock(clock).ok_or(wrong)?)),
            (0x02, [gate, pin, times @ ..]) => Ok(Entry::Delay {
                gate: u16::from(*gate),
                pin: *pin,
                times: read_times(times).ok_or(wrong)?,
            }),
            (0x03, [source, times @ ..]) => Ok(Entry::Start {
                source: u16::from(*source),
                times: read_times(times).ok_or(wrong)?,
            }),
            (0x01..=0x03, _) => Err(wrong),
            (tag, _) => Err(stray_tag(tag, field.at)),
        }
    }

    ghost form = { entry_form };
}
