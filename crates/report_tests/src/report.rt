// What no clause says: that calls succeed if memory is ample, and rows that no session gives. What sessions give is data, in
// examples/worked.

mod histories;
mod json;
mod studies;

ghost use Rattle.std.specs.Prelude.{All, IsTrue};
ghost use Rattle.pb_graph.specs.declared.records.Classified.{Classified};
ghost use Rattle.pb_graph.specs.WellFormed.{IsWitnessWithin};
ghost use Rattle.pb_report.specs.Names.{IsNamed};

use pb_advise::{MOST_COST, advise};
use pb_graph::{Class, Classified, Graph, List, MOST_NODES, Meas, Member, Step, Stream, Witness};
use pb_report::{Form, write_advise, write_design, write_over, write_refused, write_study};
use pb_rows::{Name, NameList, Names};
use pb_study::{Bounds, Options, Stage, StreamResult, Study};
use std::alloc::Global;
use std::test::Fail;

// The row of a refusal after a text.
fn refusal(alloc: Global, at: u32, code: u32) -> Result<Vec<u8>, Fail> {
    if code < 1 || code > 13 {
        return Err(Fail::new("a code"));
    }
    let mut out = Vec::from_slice(alloc, b"before\n")?;
    write_refused(alloc, at, code, Form::Csv, &mut out)?;
    Ok(out)
}

#[test]
fn writes_refusals(rt: HostRuntime) -> Result<(), Fail> {
    let table: [(u32, u32, &[u8]); 13] = [
        (1, 1, b"refused,1,1,kind\n"),
        (2, 2, b"refused,2,2,fields\n"),
        (9, 3, b"refused,9,3,name\n"),
        (10, 4, b"refused,10,4,number\n"),
        (11, 5, b"refused,11,5,date\n"),
        (99, 6, b"refused,99,6,unknown\n"),
        (100, 7, b"refused,100,7,duplicate\n"),
        (101, 8, b"refused,101,8,order\n"),
        (1000, 9, b"refused,1000,9,mismatch\n"),
        (10000, 10, b"refused,10000,10,sealed\n"),
        (100000, 11, b"refused,100000,11,closed\n"),
        (1000000, 12, b"refused,1000000,12,range\n"),
        (4294967295, 13, b"refused,4294967295,13,full\n"),
    ];
    for (at, code, line) in table {
        let out = refusal(rt.alloc(), at, code)?;
        assert!(rt;
            out.as_slice().strip_prefix(b"before\n") == Some(line),
            "code {code}"
        );
    }
    Ok(())
}

fn name(bytes: &[u8]) -> Result<Name, Fail> {
    Ok(Name::read(bytes).ok_or("a name")?)
}

fn name_list(alloc: Global, texts: &[&[u8]]) -> Result<NameList, Fail> {
    let mut list = NameList::new(alloc);
    for text in texts {
        list.push(name(text)?)?;
    }
    Ok(list)
}

fn names(alloc: Global, nodes: &[&[u8]], streams: &[&[u8]]) -> Result<Names, Fail> {
    Ok(Names {
        nodes: name_list(alloc, nodes)?,
        streams: name_list(alloc, streams)?,
    })
}

fn list<T: Copy>(alloc: Global, items: &[T]) -> Result<List<T>, Fail> {
    Ok(List::from_vec(Vec::from_slice(alloc, items)?))
}

fn plain(from: u32, to: u32) -> Stream {
    Stream {
        from,
        to,
        meas: None,
    }
}

fn metered(from: u32, to: u32, value: i128, variance: i128) -> Stream {
    Stream {
        from,
        to,
        meas: Some(Meas { value, variance }),
    }
}

fn graph(alloc: Global, nodes: u32, streams: &[Stream]) -> Result<Graph, Fail> {
    if nodes < 1 || nodes > MOST_NODES {
        return Err(Fail::new("the number of nodes"));
    }
    let mut graph = Graph::new(alloc, nodes);
    for stream in streams {
        if !graph.fits(stream) {
            return Err(Fail::new("a stream that doesn't fit"));
        }
        graph.push(*stream)?;
    }
    Ok(graph)
}

fn enters(stream: u32) -> Member {
    Member { stream, sign: 1 }
}

fn leaves(stream: u32) -> Member {
    Member { stream, sign: -1 }
}

fn cut(alloc: Global, class: Class, side: &[bool], members: &[Member]) -> Result<Classified, Fail> {
    Ok(Classified {
        class,
        witness: Witness::Cut {
            side: list(alloc, side)?,
            members: list(alloc, members)?,
        },
    })
}

fn forward(stream: u32) -> Step {
    Step {
        stream,
        forward: true,
    }
}

fn backward(stream: u32) -> Step {
    Step {
        stream,
        forward: false,
    }
}

fn cycle(alloc: Global, class: Class, steps: &[Step]) -> Result<Classified, Fail> {
    Ok(Classified {
        class,
        witness: Witness::Cycle {
            steps: list(alloc, steps)?,
        },
    })
}

// A stream's class and its cut, its flow, its bounds and its least bounds.
type Row<'a> = (
    Class,
    &'a [bool],
    &'a [Member],
    i128,
    Bounds,
    Option<Bounds>,
);

fn add_results(
    alloc: Global,
    streams: &mut List<StreamResult>,
    rows: &[Row<'_>],
) -> Result<(), Fail> {
    for &(class, side, members, flow, bounds, least) in rows {
        streams.push(StreamResult {
            classified: cut(alloc, class, side, members)?,
            flow,
            bounds: Some(bounds),
            least,
        })?;
    }
    Ok(())
}

fn results(alloc: Global, rows: &[Row<'_>]) -> Result<List<StreamResult>, Fail> {
    let mut streams = List::new(alloc);
    add_results(alloc, &mut streams, rows)?;
    Ok(streams)
}

fn between(lo: i128, hi: i128) -> Bounds {
    Bounds { lo, hi }
}

fn options(tests: bool, eliminate: u32) -> Options {
    Options {
        gap: 10,
        sweeps: 5000,
        tests,
        eliminate,
    }
}

// Whether there is one name for each node, and one for each stream.
fn is_named(names: &Names, graph: &Graph) -> bool
    ensures { IsTrue result → IsNamed names.now graph.now }
{
    names.nodes.len() == graph.nodes() as usize && names.streams.len() == graph.len() as usize
}

// Whether each certificate refers only to the graph.
fn are_within(graph: &Graph, classes: &[Classified]) -> bool
    ensures { IsTrue result → All
        (λ (classified : Classified). IsWitnessWithin graph.now classified.witness) classes.now }
{
    classes
        .iter()
        .all(|classified| classified.witness.is_within(graph))
}

// The rows of a study, which is dropped after them.
fn report(
    alloc: Global,
    names: Names,
    period: &[u8],
    options: &Options,
    study: Study,
) -> Result<Vec<u8>, Fail> {
    report_in(alloc, &names, period, options, &study, Form::Csv)
}

fn report_in(
    alloc: Global,
    names: &Names,
    period: &[u8],
    options: &Options,
    study: &Study,
    form: Form,
) -> Result<Vec<u8>, Fail> {
    if study.stages.is_empty() {
        return Err(Fail::new("a study without a stage"));
    }
    let graph = &study.stages.at(0).graph;
    if !is_named(names, graph) {
        return Err(Fail::new("a graph with other names"));
    }
    if !study.is_well_formed(graph) {
        return Err(Fail::new("a study that isn't well formed"));
    }
    let mut out = Vec::new(alloc);
    write_study(alloc, names, &name(period)?, options, study, form, &mut out)?;
    Ok(out)
}

#[test]
fn writes_a_total_too_great(rt: HostRuntime) -> Result<(), Fail> {
    let mut out = Vec::from_slice(rt.alloc(), b"before\n")?;
    write_over(rt.alloc(), &name(b"d1")?, &name(b"T")?, Form::Csv, &mut out)?;
    assert_eq!(rt; out.as_slice(), b"before\nover,d1,T\n".as_slice());
    Ok(())
}

// Adds the classes of an unmeasured stream and of a metered one beside it.
fn add_classes(alloc: Global, classes: &mut List<Classified>) -> Result<(), Fail> {
    classes.push(cut(
        alloc,
        Class::Observable,
        &[false, true, false],
        &[leaves(0), leaves(1)],
    )?)?;
    classes.push(cycle(alloc, Class::Nonredundant, &[forward(1), backward(0)])?)?;
    Ok(())
}

fn two_classes(alloc: Global) -> Result<List<Classified>, Fail> {
    let mut classes = List::new(alloc);
    add_classes(alloc, &mut classes)?;
    Ok(classes)
}

fn design_of(
    alloc: Global,
    names: &Names,
    plant: &Graph,
    classes: &List<Classified>,
    form: Form,
) -> Result<Vec<u8>, Fail> {
    if !is_named(names, plant) || !are_within(plant, classes.as_slice()) {
        return Err(Fail::new("a graph with other names or certificates"));
    }
    if classes.len() != plant.len() as usize {
        return Err(Fail::new("not one class a stream"));
    }
    let mut out = Vec::new(alloc);
    write_design(alloc, names, plant, classes, form, &mut out)?;
    Ok(out)
}

// The rows of a design of an unmeasured stream and of a metered one beside it.
fn design(alloc: Global, form: Form) -> Result<Vec<u8>, Fail> {
    let names = names(alloc, &[b"env", b"U", b"V"], &[b"P", b"M"])?;
    let plant = graph(alloc, 3, &[plain(1, 2), metered(1, 2, 0, 1)])?;
    let classes = two_classes(alloc)?;
    design_of(alloc, &names, &plant, &classes, form)
}

#[test]
fn writes_a_design(rt: HostRuntime) -> Result<(), Fail> {
    assert_eq!(rt;
        design(rt.alloc(), Form::Csv)?.as_slice(),
        b"design,3,2
class,P,U,V,no,observable,cut,U,-P -M
class,M,U,V,yes,nonredundant,cycle,,+M -P
"
            .as_slice()
    );
    Ok(())
}

// The rows of the advice for a graph at these costs.
fn advice_of(
    alloc: Global,
    names: &Names,
    plant: &Graph,
    costs: &[i64],
    form: Form,
) -> Result<Vec<u8>, Fail> {
    if !is_named(names, plant) || costs.len() != plant.len() as usize {
        return Err(Fail::new("a graph with other names or costs"));
    }
    if !costs.iter().all(|&cost| 0 <= cost && cost <= MOST_COST) {
        return Err(Fail::new("costs out of range"));
    }
    let advice = advise(alloc, plant, costs)?;
    let mut out = Vec::new(alloc);
    write_advise(alloc, names, &advice, form, &mut out)?;
    Ok(out)
}

// The rows of an advice for three unmeasured streams and a metered one between two units.
fn advice(alloc: Global, form: Form) -> Result<Vec<u8>, Fail> {
    let names = names(alloc, &[b"env", b"U", b"V"], &[b"P", b"M", b"R", b"T"])?;
    let streams = [plain(1, 2), metered(1, 2, 0, 1), plain(2, 1), plain(1, 2)];
    let plant = graph(alloc, 3, &streams)?;
    advice_of(alloc, &names, &plant, &[5, 0, 3, 5], form)
}

#[test]
fn writes_an_advice(rt: HostRuntime) -> Result<(), Fail> {
    assert_eq!(rt;
        advice(rt.alloc(), Form::Csv)?.as_slice(),
        b"advise,2,8
meter,R,3,+R +P
meter,T,5,+T -P
"
            .as_slice()
    );
    Ok(())
}

// One unit between two meters.
fn meters(alloc: Global, in_value: i128, out_value: i128, variance: i128) -> Result<Graph, Fail> {
    graph(
        alloc,
        2,
        &[
            metered(0, 1, in_value, variance),
            metered(1, 0, out_value, variance),
        ],
    )
}

fn names_of_meters(alloc: Global) -> Result<Names, Fail> {
    names(alloc, &[b"env", b"U"], &[b"A", b"B"])
}

fn study(alloc: Global, stage: Stage) -> Result<Study, Fail> {
    let mut stages = List::new(alloc);
    stages.push(stage)?;
    Ok(Study {
        stages,
        taken: List::new(alloc),
        stop: None,
    })
}

// The results of two meters, which share a flow and its bounds: the cut of the environment, and that of the unit.
fn results_of_two_meters(
    alloc: Global,
    flow: i128,
    bounds: Bounds,
    least: Option<Bounds>,
) -> Result<List<StreamResult>, Fail> {
    let at_env: &[Member] = &[leaves(0), enters(1)];
    let at_unit: &[Member] = &[enters(0), leaves(1)];
    let class = Class::Redundant;
    results(
        alloc,
        &[
            (class, &[true, false], at_env, flow, bounds, least),
            (class, &[false, true], at_unit, flow, bounds, least),
        ],
    )
}
