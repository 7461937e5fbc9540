// What is proved of the definitions alone. The functions are empty: the contract of each is a law.

ghost use Rattle.pb_forest.specs.Laws.{SpansLaw, AcyclicLaw, SomePathLaw, UniqueLaw, PartLaw, ChordLaw, SomeForestLaw, OneForestLaw, FewHeldLaw};
ghost use Rattle.pb_forest.specs.Flows.{SomeBalancedLaw, OneBalancedLaw};

/// If any streams join two nodes, the forest joins them.
pub fn spans_law()
    ensures { SpansLaw }
{}

/// The forest has no cycle.
pub fn acyclic_law()
    ensures { AcyclicLaw }
{}

/// If a walk leads from one node to another, a path does too: a walk on which no node appears twice.
pub fn some_path_law()
    ensures { SomePathLaw }
{}

/// If there is no cycle, two paths from one node to another are the same.
pub fn unique_law()
    ensures { UniqueLaw }
{}

/// If there is no cycle, a path takes only streams of any part that joins its ends.
pub fn part_law()
    ensures { PartLaw }
{}

/// The ends of an unmeasured stream outside the forest are joined by held unmeasured streams.
pub fn chord_law()
    ensures { ChordLaw }
{}

/// Each list of streams has a spanning forest.
pub fn some_forest_law()
    ensures { SomeForestLaw }
{}

/// A list of streams has only one spanning forest.
pub fn one_forest_law()
    ensures { OneForestLaw }
{}

/// There is a balanced flow vector with given flows off the forest.
pub fn some_balanced_law()
    ensures { SomeBalancedLaw }
{}

/// There is at most one balanced flow vector with given flows off the forest.
pub fn one_balanced_law()
    ensures { OneBalancedLaw }
{}

/// There are fewer degrees of freedom than nodes.
pub fn few_held_law()
    ensures { FewHeldLaw }
{}
