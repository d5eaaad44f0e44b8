// The fields of a file, read one after another.
ghost use Rattle.std.specs.Prelude.{◌≡◌};
ghost use Rattle.std.specs.Iterator.{YieldsFirst, item_count};
ghost use Rattle.fields.specs.Lists.{fields, rest};
ghost use Rattle.fields.specs.Reading.{Reads};

use crate::faults::FieldFault;
use crate::field::field_at;
use crate::says::Says;
use std::marker::PhantomData;

/// A field of a file: the place of its tag, and what it says or lacks.
#[derive(Clone, Copy, PartialEq, Eq, Debug)]
pub struct Placed<T> {
    pub at: usize,
    pub said: Result<T, FieldFault>,
}

/// The fields of a file that are still to come; one that is cut off is the last.
#[derive(Clone, Copy)]
pub struct Fields<'a, T> {
    file: &'a [u8],
    at: usize,
    of: PhantomData<T>,
}

/// What the field at a place of a file says, and where the next one begins.
pub fn read_field<T: Says>(file: &[u8], at: usize) -> Result<(T, usize), FieldFault>
    ensures { Reads T.says T.written file.now at result }
{
    let (field, next) = field_at(file, at)?;
    let said = T::decode(field)?;
    Ok((said, next))
}

impl<'a, T: Says> Fields<'a, T> {
    /// The fields of a file.
    pub fn new(file: &'a [u8]) -> Fields<'a, T>
        ensures { rest T.says result ≡ fields T.says file.now }
    {
        Fields {
            file,
            at: 0,
            of: PhantomData,
        }
    }
}

impl<T: Says> Iterator for Fields<'_, T> {
    type Item = Placed<T>;

    ghost next_gives = { YieldsFirst (rest T.says) };

    ghost remaining = { item_count (rest T.says) };

    fn next(&mut self) -> Option<Placed<T>> {
        if self.at >= self.file.len() {
            return None;
        }
        let at = self.at;
        let (said, next) = match field_at(self.file, at) {
            Ok((field, next)) => (T::decode(field), next),
            Err(fault) => (Err(fault), self.file.len()),
        };
        self.at = next;
        Some(Placed { at, said })
    }
}
