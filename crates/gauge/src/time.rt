ghost use Rattle.std.specs.Prelude.{◌≡◌, ◌+◌, ◌^◌, ◌<◌, Some, min, max};
ghost use Rattle.std.specs.Fmt.{decimal};

use std::fmt;

/// A time in whole picoseconds, from 0 to 4,294,967,295.
#[derive(Clone, Copy, PartialEq, Eq, PartialOrd, Ord, Debug)]
pub struct Time {
    picoseconds: u32,
    ghost fits: { picoseconds < 2 ^ 32 },
}

impl Time {
    /// The sum, stopped at the largest time.
    pub fn saturating_add(self, other: Time) -> Time
        ensures { result.picoseconds ≡ min (self.picoseconds + other.picoseconds) 4294967295 }
    {
        Time::from(self.picoseconds.saturating_add(other.picoseconds))
    }
}

impl From<u32> for Time {
    ghost from_gives = { λ n t. t.picoseconds ≡ n };

    fn from(picoseconds: u32) -> Time {
        Time { picoseconds }
    }
}

impl From<Time> for u32 {
    ghost from_gives = { λ t n. n ≡ t.picoseconds };

    fn from(time: Time) -> u32 {
        time.picoseconds
    }
}

impl fmt::Display for Time {
    ghost output = { λ t. Some (decimal t.picoseconds) };

    fn fmt<W: fmt::Write>(&self, f: &mut fmt::Formatter<W>) -> fmt::Result {
        write!(f, "{}", self.picoseconds)
    }
}
