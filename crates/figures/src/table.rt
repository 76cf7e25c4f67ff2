ghost use Rattle.figures.specs.Table.{TableHolds};

/// That every row of the table of worked figures holds.
pub fn table_holds()
    ensures { TableHolds }
{}
