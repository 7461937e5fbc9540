// What the rows of each kind say, column by column.

ghost use Rattle.std.specs.Prelude.{◌≡◌, false, IfOk, if◌then◌else◌};
ghost use Rattle.pb_graph.specs.ProcessGraph.{IsWithinLimits};
ghost use Rattle.pb_form.specs.OutputRows.{output_columns};
ghost use Rattle.pb_form.specs.Writing.{FitEach};
ghost use Rattle.pb_form.specs.declared.output.OutputKind.TheVariants.{Nodal, Measure};
ghost use Rattle.pb_blocks.specs.Counts.{IsCountAt, IsStreamKind};
ghost use Rattle.pb_choices.specs.Places.{placed_class, placed_shape, placed_truth, placed_verdict};
ghost use Rattle.pb_blocks.specs.Values.{said_arc, both_bounds, chosen_at, said_global, both_meas, said_measure, natural_at, said_nodal, said_solution, said_stream};
ghost use Rattle.pb_form.specs.Values.{value_at, number_in, number_at};

use crate::known::Known;
use crate::lists::side_of;
use crate::rows::{Solution, StreamRow};
use crate::texts::{from_field, name_field, parts_field, place_after, side_field, to_field};
use pb_choices::{Shape, placed_class, placed_shape, placed_truth, placed_verdict};
use pb_form::{Fields, OutputKind, Values};
use pb_graph::{Class, List, Meas, Stream};
use pb_study::{Bounds, GlobalTest, MeasureTest, NodalTest, Solved, Verdict};
use std::alloc::{AllocError, Global};

/// The ends of a stream, by their places among the nodes, and what was measured of it.
pub fn said_arc(nodes: &Known, kind: OutputKind, fields: &Fields, values: &Values) -> Stream
    requires stream { IsStreamKind kind }
    requires fit { FitEach (output_columns kind) values.now }
    ensures value { result ≡ said_arc nodes.now fields.now values.now }
    ensures limits { IsWithinLimits result }
{
    Stream {
        from: nodes.place(from_field(fields)),
        to: nodes.place(to_field(fields)),
        meas: both_meas(values.number(4), values.number(5)),
    }
}

// A value with its variance, or neither.
fn both_meas(value: Option<i128>, variance: Option<i128>) -> Option<Meas>
    ensures { result ≡ both_meas value variance }
{
    match (value, variance) {
        (Some(value), Some(variance)) => Some(Meas { value, variance }),
        _ => None,
    }
}

/// A stream's class, flow, bounds and certificate.
pub fn said_stream(
    alloc: Global,
    nodes: &Known,
    kind: OutputKind,
    fields: &Fields,
    values: &Values,
) -> Result<StreamRow, AllocError>
    ensures { IfOk result (λ row. row ≡ said_stream nodes.now kind fields.now values.now) }
{
    Ok(StreamRow {
        class: class_at(values, 6),
        flow: number(values, 7),
        bounds: both_bounds(values.number(8), values.number(9)),
        least: both_bounds(values.number(10), values.number(11)),
        shape: shape_at(values, place_after(kind, 12)),
        side: side_of(alloc, nodes, side_field(kind, fields))?,
        parts: List::from_vec(Vec::from_slice(alloc, parts_field(kind, fields))?),
    })
}

// A lower bound with an upper one, or neither.
fn both_bounds(lo: Option<i128>, hi: Option<i128>) -> Option<Bounds>
    ensures { result ≡ both_bounds lo hi }
{
    match (lo, hi) {
        (Some(lo), Some(hi)) => Some(Bounds { lo, hi }),
        _ => None,
    }
}

/// How the stage was solved.
pub fn said_solution(values: &Values) -> Solution
    requires { FitEach (output_columns OutputKind.Solved) values.now }
    ensures { result ≡ said_solution values.now }
{
    Solution {
        solved: solved_after(truth_at(values, 2), natural(values, 1)),
        g: long_natural(values, 3),
        h: natural(values, 4),
        dof: natural(values, 5),
        low: number(values, 6),
        high: values.number(7),
    }
}

/// The global test.
pub fn said_global(values: &Values) -> GlobalTest
    requires { FitEach (output_columns OutputKind.Global) values.now }
    ensures { result ≡ said_global values.now }
{
    GlobalTest {
        critical: critical(values, 1),
        verdict: verdict_at(values, 2),
    }
}

/// The test of a balance, by the place of its node.
pub fn said_nodal(nodes: &Known, fields: &Fields, values: &Values) -> NodalTest
    requires { FitEach (output_columns Nodal) values.now }
    ensures { result ≡ said_nodal nodes.now fields.now values.now }
{
    NodalTest {
        node: nodes.place(name_field(fields)),
        net: number(values, 2),
        variance: number(values, 3),
        critical: critical(values, 4),
        verdict: verdict_at(values, 5),
    }
}

/// The test of a measurement, by the place of its stream.
pub fn said_measure(streams: &Known, fields: &Fields, values: &Values) -> MeasureTest
    requires { FitEach (output_columns Measure) values.now }
    ensures { result ≡ said_measure streams.now fields.now values.now }
{
    MeasureTest {
        stream: streams.place(name_field(fields)),
        low: number(values, 2),
        high: values.number(3),
        critical: critical(values, 4),
        verdict: verdict_at(values, 5),
    }
}

/// The number at a place of a column that may not be empty.
pub fn number(values: &Values, place: usize) -> i128
    ensures { result ≡ number_at values.now place }
{
    values.number(place).unwrap_or(0)
}

// The same for a number that isn't negative.
pub(crate) fn natural(values: &Values, place: usize) -> u32
    requires { IsCountAt 4294967295 values.now place }
    ensures { result ≡ natural_at values.now place }
{
    number(values, place) as u32
}

// The same for a number of up to 64 bits that isn't negative.
fn long_natural(values: &Values, place: usize) -> u64
    requires { IsCountAt 18446744073709551615 values.now place }
    ensures { result ≡ natural_at values.now place }
{
    number(values, place) as u64
}

// The critical value at a place, in thousandths, if there is one.
fn critical(values: &Values, place: usize) -> Option<i64>
    requires { IsCountAt 9223372036854775807 values.now place }
    ensures { result ≡ value_at number_in values.now place }
{
    match values.number(place) {
        Some(value) => Some(value as i64),
        None => None,
    }
}

// The class whose word stands at a place.
fn class_at(values: &Values, place: usize) -> Class
    ensures { result ≡ chosen_at placed_class Class.Nonredundant values.now place }
{
    match values.word(place) {
        Some(word) => placed_class(word).unwrap_or(Class::Nonredundant),
        None => Class::Nonredundant,
    }
}

// The shape whose word stands at a place.
fn shape_at(values: &Values, place: usize) -> Shape
    ensures { result ≡ chosen_at placed_shape Shape.Cycle values.now place }
{
    match values.word(place) {
        Some(word) => placed_shape(word).unwrap_or(Shape::Cycle),
        None => Shape::Cycle,
    }
}

// Whether the word at a place says that something holds.
fn truth_at(values: &Values, place: usize) -> bool
    ensures { result ≡ chosen_at placed_truth false values.now place }
{
    match values.word(place) {
        Some(word) => placed_truth(word).unwrap_or(false),
        None => false,
    }
}

// The verdict whose word stands at a place.
fn verdict_at(values: &Values, place: usize) -> Verdict
    ensures { result ≡ chosen_at placed_verdict Verdict.NoTest values.now place }
{
    match values.word(place) {
        Some(word) => placed_verdict(word).unwrap_or(Verdict::NoTest),
        None => Verdict::NoTest,
    }
}

// The sweeps done, and whether the gap was met.
fn solved_after(met: bool, sweeps: u32) -> Solved
    ensures { result ≡ if met then Solved.Converged sweeps else Solved.Unconverged sweeps }
{
    if met {
        Solved::Converged(sweeps)
    } else {
        Solved::Unconverged(sweeps)
    }
}
