// What holds of every opened board.
ghost use Rattle.opening.specs.Laws.{OpenedHolds, FileWebsRank};

/// Cell by cell: starts and weights are those of the delay table, each value is its path sum, and the cells past the end are as they were.
pub fn opened_boards_hold<G>()
    ensures { OpenedHolds G }
{}

/// The web of a network and a delay table has ranks, so what is proved of path sums holds of it.
pub fn file_webs_rank<G>()
    ensures { FileWebsRank G }
{}
