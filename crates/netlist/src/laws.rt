// What every accepted netlist has.
ghost use Rattle.netlist.specs.Laws.{OneDriver, Endpoints, NamesClimb, FirstMentions};

/// Each signal has exactly one driver.
pub fn one_driver()
    ensures { OneDriver }
{}

/// Endpoints are what lines of outputs and latches name.
pub fn endpoints()
    ensures { Endpoints }
{}

/// Signals differ in name, and are numbered by first mention.
pub fn numbered_by_mention()
    ensures climb { NamesClimb }
    ensures first { FirstMentions }
{}
