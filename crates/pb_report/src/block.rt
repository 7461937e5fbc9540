// The block of a stage: what frames it, its nodes, its streams, and how it was solved.

ghost use Rattle.std.specs.Prelude.{◌≡◌, ◌<◌, ◌∷◌, [], ℕ, ℤ, List, length, All, OnOk};
ghost use Rattle.std.specs.Option.{option_and};
ghost use Rattle.pb_form.specs.Given.{value_as};
ghost use Rattle.pb_form.specs.Holds.{Holds};
ghost use Rattle.pb_form.specs.Value.{Number};
ghost use Rattle.pb_graph.specs.declared.records.Meas.{Meas};
ghost use Rattle.pb_graph.specs.ProcessGraph.{IsStream};
ghost use Rattle.pb_study.specs.WellFormed.{IsResultWithin, IsWellFormed, sweeps_of};
ghost use Rattle.pb_graph.specs.WellFormed.{IsWitnessWithin};
ghost use Rattle.pb_report.specs.Block.{block_rows, end_row, high_end, low_end, node_row, report_row, result_row, solved_row};
ghost use Rattle.pb_report.specs.Certificate.{certificate_values};
ghost use Rattle.pb_report.specs.Given.{given_certificate, given_row};
ghost use Rattle.pb_report.specs.Names.{IsNamed};
ghost use Rattle.pb_report.specs.Output.{AddsRows};
ghost use Rattle.pb_report.specs.Row.{value_or_none};
ghost use Rattle.pb_report.specs.Rows.{rows_with};

use crate::certificate::{Certificate, Certificates};
use crate::output::Output;
use crate::values::optional_number;
use crate::verdicts::write_tests;
use pb_choices::{class_place, gap_met, shape_place, truth_place};
use pb_form::{OutputKind, Value};
use pb_graph::{Graph, List, Meas, Stream};
use pb_rows::{Name, NameList, Names};
use pb_study::{Bounds, Options, Solved, Stage, StreamResult};
use std::alloc::AllocError;

/// Writes the block of a stage.
pub fn write_block(
    names: &Names,
    period: &Name,
    options: &Options,
    round: usize,
    stage: &Stage,
    output: &mut Output,
) -> Result<(), AllocError>
    requires named { IsNamed names.now stage.now.graph }
    requires formed { IsWellFormed stage.now }
    ensures { OnOk result (AddsRows output.old output.new
        (block_rows names.now period.now options.now round stage.now)) }
{
    let opening = report_values(period, round, &stage.graph, options);
    output.push(OutputKind::Report, &opening)?;
    write_nodes(&names.nodes, &stage.prices, output)?;
    write_results(names, &stage.graph, &stage.streams, output)?;
    output.push(OutputKind::Solved, &solved_values(stage))?;
    write_tests(names, &stage.graph, &stage.tests, output)?;
    output.push(OutputKind::End, &end_values(period, round))
}

// The values of the row that opens a block.
fn report_values<'a>(
    period: &'a Name,
    round: usize,
    graph: &Graph,
    options: &Options,
) -> [Value<'a>; 7]
    ensures { given_row OutputKind.Report result
        ≡ report_row period.now round graph.now options.now }
{
    [
        Value::Word(0),
        Value::Text(period.as_str()),
        Value::Number(round as i128),
        Value::Number(i128::from(graph.nodes())),
        Value::Number(i128::from(graph.len())),
        Value::Number(i128::from(options.gap)),
        Value::Number(i128::from(options.sweeps)),
    ]
}

// The values of the row that closes a block.
fn end_values<'a>(period: &'a Name, round: usize) -> [Value<'a>; 3]
    ensures { given_row OutputKind.End result ≡ end_row period.now round }
{
    [
        Value::Word(0),
        Value::Text(period.as_str()),
        Value::Number(round as i128),
    ]
}

// Writes the rows of the nodes with their prices.
fn write_nodes(names: &NameList, prices: &List<i128>, output: &mut Output) -> Result<(), AllocError>
    requires { length prices.now ≡ length names.now }
    ensures { OnOk result (AddsRows output.old output.new
        (rows_with (λ (n : ℕ) (name : List ℕ) (price : ℤ). node_row name price)
        0 names.now prices.now)) }
{
    for (node, name) in names.as_slice().iter().enumerate() {
        output.push(OutputKind::Node, &node_values(name, prices.at(node)))?;
    }
    Ok(())
}

fn node_values<'a>(name: &'a Name, price: &i128) -> [Value<'a>; 3]
    ensures { given_row OutputKind.Node result ≡ node_row name.now price.now }
{
    [
        Value::Word(0),
        Value::Text(name.as_str()),
        Value::Number(*price),
    ]
}

// Writes the rows of the streams with their results.
fn write_results(
    names: &Names,
    graph: &Graph,
    results: &List<StreamResult>,
    output: &mut Output,
) -> Result<(), AllocError>
    requires named { IsNamed names.now graph.now }
    requires each { length results.now ≡ length graph.now.streams }
    requires within { All (IsResultWithin graph.now) results.now }
    ensures { OnOk result (AddsRows output.old output.new
        (rows_with (result_row names.now) 0 graph.now.streams results.now)) }
{
    let mut certificates = Certificates::new(output.allocator(), names)?;
    for (id, stream) in graph.streams().iter().enumerate() {
        write_result(
            names,
            graph,
            id,
            stream,
            results.at(id),
            &mut certificates,
            output,
        )?;
    }
    Ok(())
}

// Writes the row of one stream.
fn write_result<'a>(
    names: &Names,
    graph: &Graph,
    id: usize,
    stream: &Stream,
    result_of: &'a StreamResult,
    certificates: &mut Certificates<'a>,
    output: &mut Output,
) -> Result<(), AllocError>
    requires certificates { certificates.old ≡ names.now }
    requires named { IsNamed names.now graph.now }
    requires place { id < length graph.now.streams }
    requires ends { IsStream graph.now.nodes stream.now }
    requires within { IsWitnessWithin graph.now result_of.now.classified.witness }
    ensures adds { OnOk result (AddsRows output.old output.new
        (result_row names.now id stream.now result_of.now ∷ [])) }
    ensures names { certificates.new ≡ certificates.old }
{
    let witness = &result_of.classified.witness;
    let node = stream.from as usize;
    let certificate = certificates.take(output.allocator(), graph, node, witness)?;
    let values = result_values(names, id, stream, result_of, &certificate);
    output.push(OutputKind::Stream, &values)?;
    certificates.keep(node, witness, certificate);
    Ok(())
}

fn result_values<'a>(
    names: &'a Names,
    id: usize,
    stream: &Stream,
    result_of: &StreamResult,
    certificate: &'a Certificate,
) -> [Value<'a>; 15]
    requires place { id < length names.now.streams }
    requires from { stream.now.from < length names.now.nodes }
    requires to { stream.now.to < length names.now.nodes }
    requires shows { given_certificate certificate.now
        ≡ certificate_values names.now result_of.now.classified.witness }
    ensures { given_row OutputKind.Stream result
        ≡ result_row names.now id stream.now result_of.now }
{
    let least = written_least(result_of);
    [
        Value::Word(0),
        Value::Text(names.streams.at(id).as_str()),
        Value::Text(names.nodes.at(stream.from as usize).as_str()),
        Value::Text(names.nodes.at(stream.to as usize).as_str()),
        measured_value(stream.meas),
        measured_variance(stream.meas),
        Value::Word(class_place(result_of.classified.class)),
        Value::Number(result_of.flow),
        low_end(result_of.bounds),
        high_end(result_of.bounds),
        low_end(least),
        high_end(least),
        Value::Word(shape_place(certificate.shape)),
        Value::Text(certificate.side.as_str()),
        Value::Text(certificate.parts.as_str()),
    ]
}

fn measured_value(meas: Option<Meas>) -> Value<'static>
    ensures { (takes : Holds) → value_as takes result
        ≡ value_or_none (λ (meas : Meas). Number meas.value) meas }
{
    match meas {
        Some(meas) => Value::Number(meas.value),
        None => Value::Missing,
    }
}

fn measured_variance(meas: Option<Meas>) -> Value<'static>
    ensures { (takes : Holds) → value_as takes result
        ≡ value_or_none (λ (meas : Meas). Number meas.variance) meas }
{
    match meas {
        Some(meas) => Value::Number(meas.variance),
        None => Value::Missing,
    }
}

fn low_end(bounds: Option<Bounds>) -> Value<'static>
    ensures { (takes : Holds) → value_as takes result ≡ low_end bounds }
{
    match bounds {
        Some(bounds) => Value::Number(bounds.lo),
        None => Value::Missing,
    }
}

fn high_end(bounds: Option<Bounds>) -> Value<'static>
    ensures { (takes : Holds) → value_as takes result ≡ high_end bounds }
{
    match bounds {
        Some(bounds) => Value::Number(bounds.hi),
        None => Value::Missing,
    }
}

// The least bounds that are written for a stream: none for a stream without bounds.
fn written_least(result_of: &StreamResult) -> Option<Bounds>
    ensures { result ≡ option_and result_of.now.bounds result_of.now.least }
{
    result_of.bounds.and(result_of.least)
}

// The values of the row that says how the stage was solved.
fn solved_values(stage: &Stage) -> [Value<'static>; 8]
    ensures { given_row OutputKind.Solved result ≡ solved_row stage.now }
{
    [
        Value::Word(0),
        Value::Number(i128::from(sweeps_of(stage.solved))),
        Value::Word(truth_place(gap_met(stage.solved))),
        Value::Number(i128::from(stage.g)),
        Value::Number(i128::from(stage.h)),
        Value::Number(i128::from(stage.dof)),
        Value::Number(stage.low),
        optional_number(stage.high),
    ]
}

/// The sweeps that were done.
pub fn sweeps_of(solved: Solved) -> u32
    ensures { result ≡ sweeps_of solved }
{
    match solved {
        Solved::Converged(sweeps) | Solved::Unconverged(sweeps) => sweeps,
    }
}
