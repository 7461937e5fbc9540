// How a call ended, as a number. The first seven are those with which the program exits.

/// Everything was done; of a run or a check, nothing is wrong.
pub(crate) const DONE: u8 = 0;

/// The same, and a record was refused or a block is wrong.
pub(crate) const DONE_REFUSED: u8 = 1;

/// An argument is outside its limits. Nothing was done with it.
pub(crate) const USAGE: u8 = 2;

/// There are more bytes or more records than the limit.
pub(crate) const TOO_LARGE: u8 = 5;

/// Memory ran out.
pub(crate) const NO_MEMORY: u8 = 6;

/// The handle holds no session or, where a call makes one, it already holds one. Nothing was done.
pub(crate) const BAD_HANDLE: u8 = 7;

/// The buffer is too small. Nothing was done.
pub(crate) const SMALL_BUFFER: u8 = 8;

/// There is nothing at this place, or nothing of this name. Nothing was written.
pub(crate) const NOT_THERE: u8 = 9;

/// A stream isn't one of a process graph.
pub(crate) const BAD_STREAM: u8 = 10;
