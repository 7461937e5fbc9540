// How a call ended, as a number: the same as those of sessions, and one more.

/// Everything was done.
pub(crate) const DONE: u8 = 0;

/// An argument is outside its limits. Nothing was done.
pub(crate) const USAGE: u8 = 2;

/// Memory ran out.
pub(crate) const NO_MEMORY: u8 = 6;

/// The handle holds no study or, where a call makes one, it already holds one. Nothing was done.
pub(crate) const BAD_HANDLE: u8 = 7;

/// There is nothing at this place. Nothing was written.
pub(crate) const NOT_THERE: u8 = 9;

/// A stream isn't one of a process graph. Nothing was done.
pub(crate) const BAD_STREAM: u8 = 10;
