ghost use Rattle.std.specs.Prelude.{◌≡◌, ◌==◌, Some, None, length, if◌then◌else◌};
ghost use Rattle.fields.specs.Says.{clock_of, times_of};

use crate::entry::Clock;
use weights::times::Times;

// Two functions: one over any number of words would still name each word here.

/// The clock in twelve bytes, four for each number.
pub(crate) fn read_clock(bytes: &[u8]) -> Option<Clock>
    ensures { result ≡ (if length bytes.now == 12 then Some (clock_of bytes.now) else None) }
{
    let ([period, setup, hold], []) = bytes.as_chunks::<4>() else {
        return None;
    };
    Some(Clock {
        period: u32::from_be_bytes(*period),
        setup: u32::from_be_bytes(*setup),
        hold: u32::from_be_bytes(*hold),
    })
}

/// The four times in sixteen bytes, four for each.
pub(crate) fn read_times(bytes: &[u8]) -> Option<Times>
    ensures { result ≡ (if length bytes.now == 16 then Some (times_of bytes.now) else None) }
{
    let ([late_rise, late_fall, early_rise, early_fall], []) = bytes.as_chunks::<4>() else {
        return None;
    };
    Some(Times {
        late_rise: u32::from_be_bytes(*late_rise),
        late_fall: u32::from_be_bytes(*late_fall),
        early_rise: u32::from_be_bytes(*early_rise),
        early_fall: u32::from_be_bytes(*early_fall),
    })
}
