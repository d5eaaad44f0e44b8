// What holds of the fields of every file: each function's contract is a theorem.
ghost use Rattle.fields.specs.Laws.{CutBetween, ReadBack, ReadInPlace};

use crate::says::Says;

/// The fields before a field are those of the bytes before its tag.
pub fn files_cut_between_fields<T: Says>()
    ensures { CutBetween T.says }
{}

/// A file that is written value by value says these values, in order.
pub fn written_files_are_read_back<T: Says>()
    ensures { ReadBack T.says T.written }
{}

/// Of the fields from any place of a file on: the first is the one at the place, and the next begins behind it and within the file;
/// a value that is written there is read, whatever bytes stand before and behind it; a field that can't be read is refused at its tag.
pub fn written_fields_are_read_in_place<T: Says>()
    ensures { ReadInPlace T.says T.written }
{}
