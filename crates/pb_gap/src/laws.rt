// What is proved of the definitions alone. The functions are empty: the contract of each is a law.

ghost use Rattle.pb_gap.specs.Laws.{WeightLaw, SignedSchwarzLaw, IdentityLaw, DualityLaw, AreGaps, GapLaw, EnclosureLaw, StreamSumLaw, StreamLaw, LowLaw, HighLaw};
ghost use Rattle.pb_gap.specs.Nets.{NetLaw};
ghost use Rattle.pb_gap.specs.Least.{OrthogonalityLaw, ExcessLaw, DistanceLaw};
ghost use Rattle.pb_gap.specs.LeastBoundsLaws.{HypercircleLaw, LeastWidthLaw, LeastBoundsLaw, LeastStreamLaw, LeastRangeLaw};
ghost use Rattle.pb_gap.specs.RangeLaws.{RangeLaw};
ghost use Rattle.pb_gap.specs.Solution.{SomeStateLaw, OneStateLaw, OutsideLaw, SomeSolutionLaw, OneSolutionLaw, SomeSolvedStatisticLaw, OneSolvedStatisticLaw};

/// The product of the variances over each of them is a whole number.
pub fn weight_law()
    ensures { WeightLaw }
{}

/// The weighted squares of balanced flows are the dual value of any prices that fit plus the weighted squares of the residuals, so
/// the dual value is never above them.
pub fn duality_law()
    ensures identity { IdentityLaw }
    ensures weak { DualityLaw }
{}

/// The inequality of Cauchy and Schwarz for errors of the streams, summed with signs over some measured ones, each at most once.
pub fn schwarz_law()
    ensures { SignedSchwarzLaw }
{}

/// The gap that is computed from a list of deviations has the properties that define it, and only that gap has them. It bounds how far
/// the weighted squares of balanced whole flows exceed the dual value.
pub fn gap_law()
    ensures numbers { AreGaps }
    ensures excess { GapLaw }
{}

/// At a least vector the errors are orthogonal to every balanced vector. So the weighted squares of a balanced vector exceed those of
/// a least one by the square of their distance, and balanced whole flows are at most their gap from a least vector.
pub fn least_law()
    ensures orthogonal { OrthogonalityLaw }
    ensures excess { ExcessLaw }
    ensures distance { DistanceLaw }
{}

/// If the gap of balanced whole flows is met at a number of thousandths, the net dual flow of each group is at most that many
/// thousandths of the standard deviation of the group's imbalance.
pub fn net_law()
    ensures { NetLaw }
{}

/// Each balanced vector no worse than some balanced whole flows is within the bounds that any prices that fit give.
pub fn enclosure_law()
    ensures { EnclosureLaw }
{}

/// A stream that has bounds is the signed sum of measured streams, and it is within its bounds in each balanced vector no worse than
/// some balanced whole flows.
pub fn stream_law()
    ensures sum { StreamSumLaw }
    ensures within { StreamLaw }
{}

/// The weighted squares of each balanced vector are at least the low end of the statistic, and those of the flows at most its high end.
pub fn statistic_law()
    ensures low { LowLaw }
    ensures high { HighLaw }
{}

/// Prices that fit, and the flows that belong to them, have numbers within the ranges in which they are printed.
pub fn range_law()
    ensures { RangeLaw }
{}

/// A process graph has a state after each number of sweeps.
pub fn some_state_law()
    ensures { SomeStateLaw }
{}

/// A process graph has at most one state after each number of sweeps.
pub fn one_state_law()
    ensures { OneStateLaw }
{}

/// A node outside the graph has the price 0 in each state.
pub fn outside_law()
    ensures { OutsideLaw }
{}

/// A process graph has a solution at each gap and each greatest number of sweeps.
pub fn some_solution_law()
    ensures { SomeSolutionLaw }
{}

/// A process graph has at most one solution at each gap and each greatest number of sweeps.
pub fn one_solution_law()
    ensures { OneSolutionLaw }
{}

/// The statistic of a process graph, solved at a gap with a greatest number of sweeps, has exactly one pair of ends.
pub fn solved_statistic_law()
    ensures some { SomeSolvedStatisticLaw }
    ensures one { OneSolvedStatisticLaw }
{}

/// A least vector is half as far from the middle of balanced flows and dual flows as these are from each other. So each signed sum of
/// measured flows, and each stream that has least bounds, is within its least bounds. These are in the range of bounds.
pub fn least_bounds_law()
    ensures hypercircle { HypercircleLaw }
    ensures width { LeastWidthLaw }
    ensures sum { LeastBoundsLaw }
    ensures stream { LeastStreamLaw }
    ensures range { LeastRangeLaw }
{}
