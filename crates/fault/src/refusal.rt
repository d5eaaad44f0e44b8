ghost use Rattle.std.specs.Prelude.{◌≡◌};
ghost use Rattle.fault.specs.Causes.{number_of};

use crate::cause::Cause;

/// A refusal: the cause, and the byte offset in the file that is read. By the rules, calls without a file say 0.
#[derive(Clone, Copy, PartialEq, Eq, Debug)]
pub struct Refusal {
    pub cause: Cause,
    pub place: usize,
}

impl Refusal {
    pub fn number(self) -> u8
        ensures { result ≡ number_of self.cause }
    {
        u8::from(self.cause)
    }
}
