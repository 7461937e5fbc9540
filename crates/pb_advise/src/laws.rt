// What is proved of the definitions alone. The functions are empty: the contract of each is a law.

ghost use Rattle.pb_advise.specs.Laws.{AdviceFormLaw, CheapestLaw, CostLimitLaw, CyclesLaw, OneAdviceLaw, SomeAdviceLaw, SufficesLaw};

/// The constant of the greatest cost equals the number of its definition.
pub fn cost_limit_law()
    ensures { CostLimitLaw }
{}

/// A choice suffices exactly when the streams that stay unmeasured have no cycle.
pub fn suffices_law()
    ensures { SufficesLaw }
{}

/// The cycles of an advice alone prove that no choice that suffices costs less.
pub fn cycles_law()
    ensures { CyclesLaw }
{}

/// The advice is the cheapest metering.
pub fn cheapest_law()
    ensures { CheapestLaw }
{}

/// A graph has at most one advice at given costs.
pub fn one_advice_law()
    ensures { OneAdviceLaw }
{}

/// A graph has an advice at any costs.
pub fn some_advice_law()
    ensures { SomeAdviceLaw }
{}

/// An advice refers only to streams of its graph, and its numbers are within their ranges.
pub fn advice_form_law()
    ensures { AdviceFormLaw }
{}
