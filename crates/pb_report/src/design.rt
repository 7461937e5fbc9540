// The rows of a design.

ghost use Rattle.std.specs.Prelude.{◌≡◌, ◌<◌, ◌∷◌, [], length, All, OnOk, OnErr};
ghost use Rattle.pb_graph.specs.declared.records.Classified.{Classified};
ghost use Rattle.pb_graph.specs.ProcessGraph.{IsStream};
ghost use Rattle.pb_graph.specs.WellFormed.{IsWitnessWithin};
ghost use Rattle.pb_report.specs.Certificate.{certificate_values};
ghost use Rattle.pb_report.specs.Design.{class_row, design_rows, graph_row};
ghost use Rattle.pb_report.specs.Form.{AppendsRows};
ghost use Rattle.pb_report.specs.Given.{given_certificate, given_row};
ghost use Rattle.pb_report.specs.Names.{IsNamed};
ghost use Rattle.pb_report.specs.Output.{AddsRows};
ghost use Rattle.pb_report.specs.Rows.{rows_with};

use crate::certificate::{Certificate, Certificates};
use crate::form::Form;
use crate::output::Output;
use pb_choices::{class_place, shape_place, truth_place};
use pb_form::{OutputKind, Value};
use pb_graph::{Classified, Graph, List, Stream};
use pb_rows::Names;
use std::alloc::{AllocError, Global};

/// Appends the rows of a design: `design` with the numbers of nodes and streams, and one `class` row for each stream, with its
/// class and the cut or the cycle that shows it.
pub fn write_design(
    alloc: Global,
    names: &Names,
    graph: &Graph,
    classes: &List<Classified>,
    form: Form,
    out: &mut Vec<u8>,
) -> Result<(), AllocError>
    requires named { IsNamed names.now graph.now }
    requires each { length classes.now ≡ length graph.now.streams }
    requires within { All
        (λ (classified : Classified). IsWitnessWithin graph.now classified.witness) classes.now }
    ensures ok { OnOk result (AppendsRows form out.old.items out.new.items
        (design_rows names.now graph.now classes.now)) }
    ensures err { OnErr result (out.new.items ≡ out.old.items) }
{
    let mut output = Output::new(alloc, form);
    output.push(OutputKind::Design, &graph_values(graph))?;
    write_classes(names, graph, classes, &mut output)?;
    output.append_to(out)
}

fn graph_values(graph: &Graph) -> [Value<'static>; 3]
    ensures { given_row OutputKind.Design result ≡ graph_row graph.now }
{
    [
        Value::Word(0),
        Value::Number(i128::from(graph.nodes())),
        Value::Number(i128::from(graph.len())),
    ]
}

// Writes the rows of the streams.
fn write_classes(
    names: &Names,
    graph: &Graph,
    classes: &List<Classified>,
    output: &mut Output,
) -> Result<(), AllocError>
    requires named { IsNamed names.now graph.now }
    requires each { length classes.now ≡ length graph.now.streams }
    requires within { All
        (λ (classified : Classified). IsWitnessWithin graph.now classified.witness) classes.now }
    ensures { OnOk result (AddsRows output.old output.new
        (rows_with (class_row names.now) 0 graph.now.streams classes.now)) }
{
    let mut certificates = Certificates::new(output.allocator(), names)?;
    for (id, stream) in graph.streams().iter().enumerate() {
        write_class(
            names,
            graph,
            id,
            stream,
            classes.at(id),
            &mut certificates,
            output,
        )?;
    }
    Ok(())
}

// Writes the row of one stream.
fn write_class<'a>(
    names: &Names,
    graph: &Graph,
    id: usize,
    stream: &Stream,
    classified: &'a Classified,
    certificates: &mut Certificates<'a>,
    output: &mut Output,
) -> Result<(), AllocError>
    requires certificates { certificates.old ≡ names.now }
    requires named { IsNamed names.now graph.now }
    requires place { id < length graph.now.streams }
    requires ends { IsStream graph.now.nodes stream.now }
    requires within { IsWitnessWithin graph.now classified.now.witness }
    ensures adds { OnOk result (AddsRows output.old output.new
        (class_row names.now id stream.now classified.now ∷ [])) }
    ensures names { certificates.new ≡ certificates.old }
{
    let witness = &classified.witness;
    let node = stream.from as usize;
    let certificate = certificates.take(output.allocator(), graph, node, witness)?;
    let values = class_values(names, id, stream, classified, &certificate);
    output.push(OutputKind::Class, &values)?;
    certificates.keep(node, witness, certificate);
    Ok(())
}

fn class_values<'a>(
    names: &'a Names,
    id: usize,
    stream: &Stream,
    classified: &Classified,
    certificate: &'a Certificate,
) -> [Value<'a>; 9]
    requires place { id < length names.now.streams }
    requires from { stream.now.from < length names.now.nodes }
    requires to { stream.now.to < length names.now.nodes }
    requires shows { given_certificate certificate.now
        ≡ certificate_values names.now classified.now.witness }
    ensures { given_row OutputKind.Class result
        ≡ class_row names.now id stream.now classified.now }
{
    [
        Value::Word(0),
        Value::Text(names.streams.at(id).as_str()),
        Value::Text(names.nodes.at(stream.from as usize).as_str()),
        Value::Text(names.nodes.at(stream.to as usize).as_str()),
        Value::Word(truth_place(stream.meas.is_some())),
        Value::Word(class_place(classified.class)),
        Value::Word(shape_place(certificate.shape)),
        Value::Text(certificate.side.as_str()),
        Value::Text(certificate.parts.as_str()),
    ]
}
