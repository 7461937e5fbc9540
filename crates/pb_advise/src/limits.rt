// The greatest cost of a meter.

/// The greatest cost of a meter, in any unit.
pub const MOST_COST: i64 = 1_000_000_000_000;
