// Laws about records that are read.

ghost use Rattle.pb_readback.specs.Laws.{FormedBlockLaw, JoinLaw, NextLaw};

/// The law that exactly one thing comes next in records.
pub fn next_law()
    ensures law { NextLaw }
{}

/// The law that the blocks of two lists of records put together are the blocks of the first list and then the blocks of the second.
pub fn join_law()
    ensures law { JoinLaw }
{}

/// The law that a block that is read is well formed.
pub fn formed_law()
    ensures law { FormedBlockLaw }
{}
