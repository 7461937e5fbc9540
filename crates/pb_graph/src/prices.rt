// The limits of prices that fit.

ghost use Rattle.pb_graph.specs.Laws.{PriceLimitsLaw};

/// The greatest price of a node, in units of 2^-56 per gram, either way.
pub const MOST_PRICE: i128 = 1 << 120;

/// The greatest adjustment of a measured flow, in units of 2^-56 grams, either way.
pub const MOST_ADJUSTMENT: i128 = 1 << 112;

/// Each constant equals the number in its definition.
pub fn price_limits_law()
    ensures { PriceLimitsLaw }
{}
