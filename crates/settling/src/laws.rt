// What holds of every sound shape.
ghost use Rattle.settling.specs.Tables.{Ranks};

/// The web of a sound shape has ranks, so what is proved of path sums holds of it.
pub fn sound_shapes_rank<V>()
    ensures { Ranks V }
{}
