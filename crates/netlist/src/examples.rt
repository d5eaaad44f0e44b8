// Worked examples.
ghost use Rattle.netlist.specs.Examples.{BoardK, Refusals};

/// What the definition says of small texts.
pub fn small_texts_read()
    ensures board { BoardK }
    ensures refusals { Refusals }
{}
