ghost use Rattle.std.specs.Prelude.{◌≡◌, Some};
ghost use Rattle.fault.specs.Causes.{number_of, sentence_of, NumbersDiffer};

use std::fmt;

/// Why a call refuses. The rules number the causes from 1 to 17.
#[derive(Clone, Copy, PartialEq, Eq, Debug)]
pub enum Cause {
    FileTooLong = 1,
    BadByte = 2,
    BadLine = 3,
    LongName = 4,
    TooManyPins = 5,
    TooManySignals = 6,
    BadRow = 7,
    SecondDriver = 8,
    NoDriver = 9,
    Cycle = 10,
    BadField = 11,
    NoSuchPart = 12,
    EarlyAboveLate = 13,
    NamedTwice = 14,
    TooShort = 15,
    LowLimit = 16,
    NoPinGives = 17,
}

impl Cause {
    /// The number by which the rules, the program and the panel know the cause.
    pub fn number(self) -> u8
        ensures { result ≡ number_of self }
    {
        self as u8
    }

    /// The cause in words.
    pub fn sentence(self) -> &'static str
        ensures { result.now ≡ sentence_of self }
    {
        match self {
            Cause::FileTooLong => "the file is too long",
            Cause::BadByte => "this byte may not stand in a netlist",
            Cause::BadLine => "this line is outside the rules, or `.end` is missing",
            Cause::LongName => "this name has over 32 bytes",
            Cause::TooManyPins => "this gate has over four pins",
            Cause::TooManySignals => "this name would be one signal too many",
            Cause::BadRow => "this row is wrong or misplaced",
            Cause::SecondDriver => "this signal has a driver already",
            Cause::NoDriver => "this signal has no driver",
            Cause::Cycle => "this signal would lie on a cycle",
            Cause::BadField => "this field is unknown, cut off, misplaced or of wrong length",
            Cause::NoSuchPart => "there is no such signal, pin, source or edge",
            Cause::EarlyAboveLate => "an early time is above its late time",
            Cause::NamedTwice => "this pin or source is named twice",
            Cause::TooShort => "a table or strip is too short",
            Cause::LowLimit => "the waiting list is too small for the signals",
            Cause::NoPinGives => "no pin gives this arrival",
        }
    }
}

impl From<Cause> for u8 {
    ghost from_gives = { λ cause number. number ≡ number_of cause };

    fn from(cause: Cause) -> u8 {
        cause.number()
    }
}

/// No two causes share a number.
pub fn numbers_differ()
    ensures { NumbersDiffer }
{}

impl fmt::Display for Cause {
    ghost output = { λ c. Some (sentence_of c) };

    fn fmt<W: fmt::Write>(&self, f: &mut fmt::Formatter<W>) -> fmt::Result {
        f.write_str(self.sentence())
    }
}
