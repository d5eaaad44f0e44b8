/// Why a call has no room to work in.
#[derive(Clone, Copy, PartialEq, Eq, Debug)]
pub enum RoomFault {
    /// a table of the board, or the mark strip, has too few cells
    TooShort,
    /// the waiting list's limit is below the number of signals
    LowLimit,
}
