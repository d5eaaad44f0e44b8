// What holds of every table that is accepted, and an example.
ghost use Rattle.delays.specs.Example.{JudgedSo};
ghost use Rattle.delays.specs.Laws.{AcceptedWellNamed};

/// An accepted table names only what is there, and each part at most once.
pub fn accepted_tables_are_well_named()
    ensures { AcceptedWellNamed }
{}

/// How the tables of one small board are judged, computed.
pub fn examples_are_judged()
    ensures { JudgedSo }
{}
