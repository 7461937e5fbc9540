// What is proved of printed flows. The functions are empty: the contract of each is a law.

ghost use Rattle.pb_laws.specs.Flows.{NestedBoundsLaw, OwnBoundsLaw, OwnLeastBoundsLaw};

use pb_gap::{duality_law, gap_law, schwarz_law, stream_law};

/// The law that each printed flow of a certified stage is within its bounds.
pub fn own_bounds_law()
    ensures { OwnBoundsLaw }
{}

/// The law that it is within its least bounds, too: these contain the midpoint between it and each number within its bounds.
pub fn own_least_bounds_law()
    ensures { OwnLeastBoundsLaw }
{
    stream_law();
}

/// The law that least bounds are within bounds: the printed flow is strictly less than a half width from the dual flow, or both are 0.
pub fn nested_bounds_law()
    ensures { NestedBoundsLaw }
{
    duality_law();
    gap_law();
    schwarz_law();
    stream_law();
}
