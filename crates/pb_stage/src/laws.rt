// What is proved of the definitions alone. The contract of each function is a law; it calls the laws that its proof uses.

ghost use Rattle.pb_stage.specs.Laws.{SomeNodalTestsLaw, OneNodalTestsLaw, FreeGroupsLaw, NodalRangeLaw, SomeMeasureTestLaw, OneMeasureTestLaw, SomeMeasureTestsLaw, OneMeasureTestsLaw, EndsLaw, GlobalRejectLaw, GlobalAcceptLaw, DropRejectLaw, DropAcceptLaw, MeasureRejectLaw, MeasureAcceptLaw, ShownLaw};

use pb_gap::solved_statistic_law;

/// The nodal tests of a process graph, by each critical value, exist and are unique.
pub fn nodal_tests_law()
    ensures some { SomeNodalTestsLaw }
    ensures one { OneNodalTestsLaw }
{}

/// The nodal tests of a graph are of its free groups, each named by its least node, and no free group is left out.
pub fn free_groups_law()
    ensures { FreeGroupsLaw }
{}

/// The net flow and the variance of each nodal test are within the limits that its verdict requires.
pub fn nodal_range_law()
    ensures { NodalRangeLaw }
{}

/// The test of the measurement of a stream exists and is unique.
pub fn measure_test_law()
    ensures some { SomeMeasureTestLaw }
    ensures one { OneMeasureTestLaw }
{
    solved_statistic_law();
}

/// The tests of the measurements of a list of streams exist and are unique.
pub fn measure_tests_law()
    ensures some { SomeMeasureTestsLaw }
    ensures one { OneMeasureTestsLaw }
{
    solved_statistic_law();
}

/// The ends of the statistic of a solved graph are below the weighted squares of each balanced vector, and above those of its flows.
pub fn ends_law()
    ensures { EndsLaw }
{}

/// A global test that rejects is right for each balanced vector, and one that accepts is right for the flows.
pub fn decided_global_law()
    ensures reject { GlobalRejectLaw }
    ensures accept { GlobalAcceptLaw }
{}

/// The same for the drop between the ends of two statistics, wherever these come from.
pub fn decided_drop_law()
    ensures reject { DropRejectLaw }
    ensures accept { DropAcceptLaw }
{}

/// A test of a measurement that rejects is right for each balanced vector, and one that accepts is right for the flows.
pub fn decided_measure_law()
    ensures reject { MeasureRejectLaw }
    ensures accept { MeasureAcceptLaw }
{}

/// A stage that is shown is certified, whatever made it.
pub fn shown_law()
    ensures { ShownLaw }
{}
