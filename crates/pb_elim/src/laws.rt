// What is proved of the definitions alone. The contract of each function is a law; the function calls the laws that its proof uses.

ghost use Rattle.pb_elim.specs.Laws.{CertifiedLaw, TestedLaw, LeastThroughoutLaw, DecidedLaw, FormedLaw, SolutionLaw, SomeStudyLaw, OneStudyLaw};

use pb_classify::{one_classification_law, some_classification_law};
use pb_dual::laws::ascent_law;
use pb_forest::one_forest_law;
use pb_gap::{
    least_bounds_law, one_solution_law, outside_law, range_law, some_solution_law, stream_law,
};
use pb_stage::{free_groups_law, measure_tests_law, nodal_range_law, nodal_tests_law};

/// Each stage of a study is certified, for every graph, options and critical values.
pub fn certified_law()
    ensures { CertifiedLaw }
{}

/// If there are tests, each redundant stream of each stage of a study has the test of its measurement, in order.
pub fn tested_law()
    ensures { TestedLaw }
{}

/// Each stream of each stage of a study has least bounds if it has bounds.
pub fn least_throughout_law()
    ensures { LeastThroughoutLaw }
{}

/// The decided tests of measurements of each stage of a study are right.
pub fn decided_law()
    ensures { DecidedLaw }
{}

/// A study is well formed, whatever made it: each of its numbers is within the range in which it is printed.
pub fn formed_law()
    ensures { FormedLaw }
{
    ascent_law();
    range_law();
    least_bounds_law();
    stream_law();
    free_groups_law();
    nodal_range_law();
}

/// The prices, flows and sweeps of each stage are the solution of its graph.
pub fn solution_law()
    ensures { SolutionLaw }
{}

/// A process graph has a study, for all options within their limits and all critical values.
pub fn some_study_law()
    ensures { SomeStudyLaw }
{
    some_classification_law();
    some_solution_law();
    outside_law();
    nodal_tests_law();
    measure_tests_law();
}

/// A graph has at most one study with the same options and critical values, so only one text can be made from it.
pub fn one_study_law()
    ensures { OneStudyLaw }
{
    one_forest_law();
    one_classification_law();
    one_solution_law();
    nodal_tests_law();
    measure_tests_law();
}
