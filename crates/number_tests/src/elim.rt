//! Studies. Those of small plants, worked by hand, are data, in examples/worked.

ghost use Rattle.pb_study.specs.Criticals.{AreCritical};
ghost use Rattle.pb_study.specs.Options.{AreOptions};

use crate::common::assert_at;
use pb_classify::classify;
use pb_elim::{study, study_classed};
use pb_graph::{Graph, List, Stream};
use pb_study::{Critical, Options, Stage, StreamResult, Study};
use std::alloc::{AllocError, Global};
use std::process::Abort;
use test_graphs::{UNFIT, graph_of, metered};

/// No critical value.
pub fn no_critical(alloc: Global) -> Critical
    ensures { AreCritical result }
{
    Critical {
        global: List::new(alloc),
        nodal: None,
        measure: None,
    }
}

/// The study of a graph of these streams, without tests.
pub fn study_of(
    rt: &impl Abort,
    alloc: Global,
    nodes: u32,
    streams: &[Stream],
    gap: u32,
    sweeps: u32,
) -> Result<Study, AllocError> {
    assert!(rt; gap >= 1 && gap <= 1_000_000 && sweeps <= 100_000);
    let g = graph_of(alloc, nodes, streams)?.expect(rt, UNFIT);
    let options = Options {
        gap,
        sweeps,
        tests: false,
        eliminate: 0,
    };
    study(alloc, &g, &options, &no_critical(alloc))
}

/// The result of a stream.
pub fn stream_at<'a>(rt: &impl Abort, stage: &'a Stage, j: usize) -> &'a StreamResult {
    assert!(rt; j < stage.streams.len(), "stream {j}");
    stage.streams.at(j)
}

/// The studies have one stage each, alike in streams, prices and tests.
fn assert_alike(rt: &impl Abort, one: &Study, other: &Study) {
    assert!(rt;
        one.stages.len() == 1 && other.stages.len() == 1,
        "the stages"
    );
    let (one, other) = (one.stages.at(0), other.stages.at(0));
    assert!(rt; one.streams == other.streams, "the streams");
    assert!(rt; one.prices == other.prices, "the prices");
    assert!(rt; one.tests == other.tests, "the tests");
    let flow = stream_at(rt, other, 0).flow;
    assert_at(rt, "flow of stream", 0, flow, 101_000_000);
}

/// The study of a graph and the study from its classes are alike.
fn assert_as_from_classes(
    rt: &impl Abort,
    alloc: Global,
    g: &Graph,
    options: &Options,
    critical: &Critical,
    one: &Study,
) -> Result<(), AllocError>
    requires limits { AreOptions options.now }
    requires critical { AreCritical critical.now }
{
    let classes = classify(alloc, g)?;
    let other = study_classed(alloc, g, classes, options, critical)?;
    assert_alike(rt, one, &other);
    Ok(())
}

/// The same for a graph without critical values.
fn assert_both_ways(rt: &impl Abort, alloc: Global, g: &Graph) -> Result<(), AllocError> {
    let options = Options {
        gap: 10,
        sweeps: 5_000,
        tests: true,
        eliminate: 0,
    };
    let critical = no_critical(alloc);
    let one = study(alloc, g, &options, &critical)?;
    assert_as_from_classes(rt, alloc, g, &options, &critical, &one)
}

/// From its classes a graph has the study that it has without them: two meters at a unit, 2 t apart.
#[test]
fn studies_from_known_classes(rt: HostRuntime) -> Result<(), AllocError> {
    let streams = [
        metered(0, 1, 102_000_000, 1_000_000_000_000),
        metered(1, 0, 100_000_000, 1_000_000_000_000),
    ];
    let g = graph_of(rt.alloc(), 2, &streams)?.expect(&rt, UNFIT);
    assert_both_ways(&rt, rt.alloc(), &g)
}
