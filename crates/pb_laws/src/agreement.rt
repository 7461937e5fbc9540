// What is proved of the ends that certified stages print. The functions are empty: the contract of each is a law.

ghost use Rattle.pb_laws.specs.Agreement.{BoundsMeetLaw, FlowsMeetLaw, LeastBoundsMeetLaw, StatisticOrderLaw, StatisticsMeetLaw};

use pb_gap::{schwarz_law, stream_law};
use pb_least::some_least_law;

/// The law that the low end of the statistic is at most its high end, also if the two come from different certified stages of one graph.
pub fn statistic_order_law()
    ensures own { StatisticOrderLaw }
    ensures meet { StatisticsMeetLaw }
{}

/// The law that two certified stages of one graph have bounds that meet, and least bounds that meet, for each stream that has them:
/// whoever made the stages, and however different their prices and flows are.
pub fn bounds_meet_law()
    ensures bounds { BoundsMeetLaw }
    ensures least { LeastBoundsMeetLaw }
{
    some_least_law();
}

/// The law that two certified stages of one graph print flows of each determined stream that are at most the sum of their gaps apart, in
/// standard deviations: both are within their gaps of one least vector.
pub fn flows_meet_law()
    ensures { FlowsMeetLaw }
{
    some_least_law();
    schwarz_law();
    stream_law();
}
