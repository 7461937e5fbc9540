// Laws about rows that are read.

ghost use Rattle.pb_blocks.specs.Laws.{RowReadLaw};

/// The law that the numbers of a row that was read lie in the ranges of their columns, and that its names have the form of names.
pub fn row_read_law()
    ensures { RowReadLaw }
{}
