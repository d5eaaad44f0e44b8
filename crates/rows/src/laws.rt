// What the rows of a gate say together.
ghost use Rattle.rows.specs.Cover.{RowsCover};

/// A setting is matched exactly where some row matches it.
pub fn rows_cover()
    ensures { RowsCover }
{}
