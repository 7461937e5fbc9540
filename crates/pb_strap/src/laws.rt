// The laws of strapping tables.

ghost use Rattle.pb_strap.specs.Table.{HigherLevelLaw, LongerTableLaw, TableGrowsLaw};

/// A table that grows keeps its volumes, and a higher level never holds less.
pub fn tables_law()
    ensures grows { TableGrowsLaw }
    ensures longer { LongerTableLaw }
    ensures higher { HigherLevelLaw }
{}
