// The component graph.

ghost use Rattle.std.specs.Prelude.{◌≡◌, ◌≢◌, ◌<◌, length, option_map, slice_get, true, false, All, Err, IfErr, IfOk, IfSome, Some};
ghost use Rattle.std.specs.Option.{option_map_or};
ghost use Rattle.pb_graph.specs.ProcessGraph.{IsMeasurement, IsStream, IsWithinLimits};
ghost use Rattle.pb_grades.specs.declared.component.ComponentFault.TheVariants.{NoMemory, Over};
ghost use Rattle.pb_facts.specs.Grade.{IsGrade};
ghost use Rattle.pb_grades.specs.Grade.{carried, carries_too_much};
ghost use Rattle.pb_grades.specs.Component.{NamesAStreamOf, component_of, component_stream, counted_grade, is_component_over};

use crate::carried::carried_by;
use pb_facts::Grade;
use pb_graph::{Class, Graph, Meas, Stream};
use pb_study::StreamResult;
use std::alloc::{AllocError, Global};

/// Why there is no component graph.
#[derive(Clone, Copy, Debug, PartialEq, Eq)]
pub enum ComponentFault {
    /// This stream is the first one to be measured whose flow is above 10^15 grams either way, or whose component has a variance
    /// above 10^22 squared grams.
    Over(u32),
    NoMemory,
}

impl From<AllocError> for ComponentFault {
    ghost from_gives = { λ _ fault. fault ≡ NoMemory };

    fn from(_: AllocError) -> ComponentFault {
        ComponentFault::NoMemory
    }
}

// What is measured of the component in the stream at a place, by its printed flow and its grade.
fn meas_of(
    j: u32,
    printed: &StreamResult,
    grade: Option<Grade>,
) -> Result<Option<Meas>, ComponentFault>
    requires { IfSome grade IsGrade }
    ensures value { IfOk result (λ meas. meas ≡ option_map (carried printed.now.flow)
        (counted_grade printed.now.classified.class grade)) }
    ensures limits { IfOk result (λ meas. IfSome meas IsMeasurement) }
    ensures within { IfOk result (λ _. is_component_over printed.now grade ≡ false) }
    ensures place { IfErr result (λ fault. fault ≡ Over j) }
    ensures over { IfErr result (λ _. is_component_over printed.now grade ≡ true) }
{
    let Some(grade) = grade else {
        return Ok(None);
    };
    if printed.classified.class == Class::Unobservable {
        return Ok(None);
    }
    match carried_by(printed.flow, grade) {
        Some(meas) => Ok(Some(meas)),
        None => Err(ComponentFault::Over(j)),
    }
}

// The stream of the component graph at a place.
fn stream_of(
    graph: &Graph,
    j: u32,
    printed: &StreamResult,
    grade: Option<Grade>,
) -> Result<Stream, ComponentFault>
    requires place { j < length graph.now.streams }
    requires ends { All (IsStream graph.now.nodes) graph.now.streams }
    requires grade { IfSome grade IsGrade }
    ensures value { IfOk result (λ stream. Some stream
        ≡ option_map (component_stream printed.now grade) (slice_get graph.now.streams j)) }
    ensures joins { IfOk result (IsStream graph.now.nodes) }
    ensures limits { IfOk result IsWithinLimits }
    ensures within { IfOk result (λ _. is_component_over printed.now grade ≡ false) }
    ensures place { IfErr result (λ fault. fault ≡ Over j) }
    ensures over { IfErr result (λ _. is_component_over printed.now grade ≡ true) }
{
    let stream = graph.stream(j);
    let meas = meas_of(j, printed, grade)?;
    Ok(Stream {
        from: stream.from,
        to: stream.to,
        meas,
    })
}

/// The component graph of a period: its graph, with each stream measured by what its printed flow carries of the component.
///
/// `printed` is what the last stage of the period's study says of each stream, and `grades` has the grade of each stream that has an assay.
/// A stream is measured exactly when it has a grade and isn't unobservable. The first stream to be measured that is above the limits is
/// named by its place in the graph; its declared name is at the same place among the names of the streams.
pub fn component_graph(
    alloc: Global,
    graph: &Graph,
    printed: &[StreamResult],
    grades: &[Option<Grade>],
) -> Result<Graph, ComponentFault>
    requires printed { length printed.now ≡ length graph.now.streams }
    requires each { length grades.now ≡ length graph.now.streams }
    requires grades { All (λ grade. IfSome grade IsGrade) grades.now }
    ensures answer { result ≢ Err ComponentFault.NoMemory
        → result ≡ component_of graph.now printed.now grades.now }
    ensures over { IfErr result (NamesAStreamOf graph.now) }
{
    let mut component = Graph::new(alloc, graph.nodes());
    for j in 0..graph.len() {
        let stream = stream_of(graph, j, &printed[j as usize], grades[j as usize])?;
        component.push(stream)?;
    }
    Ok(component)
}
