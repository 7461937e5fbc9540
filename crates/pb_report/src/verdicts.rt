// The rows of the tests of a stage.

ghost use Rattle.std.specs.Prelude.{◌≡◌, ◌<◌, ◌∷◌, [], Some, length, map, All, IfSome, OnOk};
ghost use Rattle.pb_study.specs.declared.results.NodalTest.{NodalTest};
ghost use Rattle.pb_study.specs.declared.results.MeasureTest.{MeasureTest};
ghost use Rattle.pb_study.specs.WellFormed.{AreTestsWithin};
ghost use Rattle.pb_report.specs.Given.{given_row};
ghost use Rattle.pb_report.specs.Names.{IsNamed};
ghost use Rattle.pb_report.specs.Output.{AddsRows};
ghost use Rattle.pb_report.specs.Tests.{global_row, measure_row, nodal_row, tests_rows};

use crate::output::Output;
use crate::values::optional_number;
use pb_choices::verdict_place;
use pb_form::{OutputKind, Value};
use pb_graph::{Graph, List};
use pb_rows::Names;
use pb_study::{GlobalTest, MeasureTest, NodalTest, Tests};
use std::alloc::AllocError;

/// Writes the rows of the tests, if tests were made.
pub fn write_tests(
    names: &Names,
    graph: &Graph,
    tests: &Option<Tests>,
    output: &mut Output,
) -> Result<(), AllocError>
    requires named { IsNamed names.now graph.now }
    requires within { IfSome tests.now (AreTestsWithin graph.now) }
    ensures { OnOk result (AddsRows output.old output.new (tests_rows names.now tests.now)) }
{
    match tests {
        None => Ok(()),
        Some(tests) => write_some_tests(names, graph, tests, output),
    }
}

fn write_some_tests(
    names: &Names,
    graph: &Graph,
    tests: &Tests,
    output: &mut Output,
) -> Result<(), AllocError>
    requires named { IsNamed names.now graph.now }
    requires within { AreTestsWithin graph.now tests.now }
    ensures { OnOk result (AddsRows output.old output.new (tests_rows names.now (Some tests.now))) }
{
    output.push(OutputKind::Global, &global_values(&tests.global))?;
    write_nodal(names, &tests.nodal, output)?;
    write_measure(names, &tests.measure, output)
}

fn global_values(test: &GlobalTest) -> [Value<'static>; 3]
    ensures { given_row OutputKind.Global result ≡ global_row test.now }
{
    [
        Value::Word(0),
        optional_number(critical(test.critical)),
        Value::Word(verdict_place(test.verdict)),
    ]
}

fn write_nodal(
    names: &Names,
    tests: &List<NodalTest>,
    output: &mut Output,
) -> Result<(), AllocError>
    requires { All (λ (test : NodalTest). test.node < length names.now.nodes) tests.now }
    ensures { OnOk result (AddsRows output.old output.new (map (nodal_row names.now) tests.now)) }
{
    for test in tests.as_slice() {
        output.push(OutputKind::Nodal, &nodal_values(names, test))?;
    }
    Ok(())
}

fn nodal_values<'a>(names: &'a Names, test: &NodalTest) -> [Value<'a>; 6]
    requires { test.now.node < length names.now.nodes }
    ensures { given_row OutputKind.Nodal result ≡ nodal_row names.now test.now }
{
    [
        Value::Word(0),
        Value::Text(names.nodes.at(test.node as usize).as_str()),
        Value::Number(test.net),
        Value::Number(test.variance),
        optional_number(critical(test.critical)),
        Value::Word(verdict_place(test.verdict)),
    ]
}

fn write_measure(
    names: &Names,
    tests: &List<MeasureTest>,
    output: &mut Output,
) -> Result<(), AllocError>
    requires { All (λ (test : MeasureTest). test.stream < length names.now.streams) tests.now }
    ensures { OnOk result (AddsRows output.old output.new (map (measure_row names.now) tests.now)) }
{
    for test in tests.as_slice() {
        output.push(OutputKind::Measure, &measure_values(names, test))?;
    }
    Ok(())
}

fn measure_values<'a>(names: &'a Names, test: &MeasureTest) -> [Value<'a>; 6]
    requires { test.now.stream < length names.now.streams }
    ensures { given_row OutputKind.Measure result ≡ measure_row names.now test.now }
{
    [
        Value::Word(0),
        Value::Text(names.streams.at(test.stream as usize).as_str()),
        Value::Number(test.low),
        optional_number(test.high),
        optional_number(critical(test.critical)),
        Value::Word(verdict_place(test.verdict)),
    ]
}

// A critical value, if there is one, as a number of a column.
fn critical(value: Option<i64>) -> Option<i128>
    ensures { result ≡ value }
{
    value.map(i128::from)
}
