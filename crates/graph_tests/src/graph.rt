// Each public call at a small graph.

use pb_graph::{
    Class, Classified, Graph, List, Meas, Member, Neighbours, Parts, Step, Stream, Witness,
    boundary, path, reach,
};
use pb_study::{
    Bounds, GlobalTest, NodalTest, Solved, Stage, StreamResult, Study, Taken, Tests, Verdict,
};
use std::alloc::{AllocError, Global};
use std::process::Abort;
use test_graphs::{UNFIT, graph_of, stream};

const METER: Option<Meas> = Some(Meas {
    value: 0,
    variance: 1,
});

const OTHER_METER: Option<Meas> = Some(Meas {
    value: 5,
    variance: 7,
});

/// Two units: A from env to U, B from U to V unmeasured, C from V to env.
fn line(rt: &impl Abort, alloc: Global) -> Result<Graph, AllocError> {
    let streams = [stream(0, 1, METER), stream(1, 2, None), stream(2, 0, METER)];
    Ok(graph_of(alloc, 3, &streams)?.expect(rt, UNFIT))
}

fn step(stream: u32, forward: bool) -> Step {
    Step { stream, forward }
}

fn member(stream: u32, sign: i8) -> Member {
    Member { stream, sign }
}

#[test]
fn fits_at_the_limits(rt: HostRuntime) {
    let g = Graph::new(rt.alloc(), 2);
    let cases = [
        (0, 1, 1_000_000_000_000_000, 1, true),
        (
            0,
            1,
            -1_000_000_000_000_000,
            10_000_000_000_000_000_000_000,
            true,
        ),
        (0, 1, 1_000_000_000_000_001, 1, false),
        (0, 1, -1_000_000_000_000_001, 1, false),
        (0, 1, 0, 0, false),
        (0, 1, 0, 10_000_000_000_000_000_000_001, false),
        (1, 1, 0, 1, false),
        (0, 2, 0, 1, false),
        (2, 0, 0, 1, false),
    ];
    for (from, to, value, variance, fits) in cases {
        let stream = Stream {
            from,
            to,
            meas: Some(Meas { value, variance }),
        };
        assert_eq!(rt; g.fits(&stream), fits, "{stream:?}");
    }
}

fn assert_cuts(rt: &impl Abort, g: &Graph) {
    let members = [member(0, 1), member(1, -1)];
    let cases: [(&[bool], &[Member], bool); 4] = [
        (&[false, true, false], &members, true),
        (&[false, true, true], &members, false),
        (&[false, true], &members, false),
        (&[false, true, false], &members[..1], false),
    ];
    for (side, members, is_cut) in cases {
        assert_eq!(rt; g.is_cut(side, members), is_cut, "{side:?} and {members:?}");
    }
}

fn assert_cycles(rt: &impl Abort, g: &Graph) {
    let round = [step(0, true), step(1, true), step(2, true)];
    let there_and_back = [step(0, true), step(0, false)];
    let twice = [
        step(0, true),
        step(1, true),
        step(2, true),
        step(0, true),
        step(1, true),
        step(2, true),
    ];
    let cases: [(&[Step], bool); 5] = [
        (&round, true),
        (&round[..2], false),
        (&[], false),
        (&there_and_back, false),
        (&twice, false),
    ];
    for (steps, is_cycle) in cases {
        assert_eq!(rt; g.is_cycle(steps), is_cycle, "{steps:?}");
    }
}

fn assert_balances(rt: &impl Abort, g: &Graph) {
    assert!(rt; g.len() == 3 && g.nodes() == 3, "the line");
    assert_eq!(rt;
        (g.is_balanced(&[7, 7, 7]), g.is_balanced(&[7, 7, 8])),
        (true, false),
        "a balance"
    );
    assert_eq!(rt;
        (g.net(&[7, 5, 8], 1), g.net(&[7, 5, 8], 0)),
        (2, 1),
        "net flows"
    );
}

#[test]
fn decides_cuts_cycles_and_balances(rt: HostRuntime) -> Result<(), AllocError> {
    let g = line(&rt, rt.alloc())?;
    assert_cuts(&rt, &g);
    assert_cycles(&rt, &g);
    assert_balances(&rt, &g);
    Ok(())
}

// The line without the meter of its last stream.
fn bare(rt: &impl Abort, alloc: Global, g: &Graph) -> Result<Graph, AllocError> {
    assert!(rt; g.len() == 3, "the line");
    g.unmeasure(alloc, 2)
}

fn assert_streams(rt: &impl Abort, g: &Graph, last: Option<Meas>) {
    let want = [stream(0, 1, METER), stream(1, 2, None), stream(2, 0, last)];
    assert_eq!(rt; g.streams(), want.as_slice(), "the streams");
}

#[test]
fn unmeasures(rt: HostRuntime) -> Result<(), AllocError> {
    let g = bare(&rt, rt.alloc(), &line(&rt, rt.alloc())?)?;
    assert_streams(&rt, &g, None);
    Ok(())
}

#[test]
fn copies(rt: HostRuntime) -> Result<(), AllocError> {
    let g = line(&rt, rt.alloc())?.copy(rt.alloc())?;
    assert_streams(&rt, &g, METER);
    Ok(())
}

// The streams at a node, and the nodes that B joins.
fn assert_reached(rt: &impl Abort, alloc: Global, g: &Graph) -> Result<(), AllocError> {
    assert!(rt; g.len() == 3 && g.nodes() == 3);
    let near = Neighbours::of(alloc, g)?;
    assert_eq!(rt; near.at(1).as_slice(), [0, 1].as_slice());
    let reached = reach(alloc, g, &near, &[false, true, false], 2)?;
    assert_eq!(rt; reached.as_slice(), [false, true, true].as_slice());
    Ok(())
}

// No path over B from env to U, and a path of one step from V to U.
fn assert_paths(rt: &impl Abort, alloc: Global, g: &Graph) -> Result<(), AllocError> {
    assert!(rt; g.len() == 3 && g.nodes() == 3);
    let marks = [false, true, false];
    let near = Neighbours::of(alloc, g)?;
    assert!(rt; path(alloc, g, &near, &marks, 0, 1)?.is_none());
    let back = path(alloc, g, &near, &marks, 2, 1)?;
    assert!(rt; matches!(&back, Some(steps) if steps.as_slice() == [step(1, false)].as_slice()));
    Ok(())
}

#[test]
fn searches(rt: HostRuntime) -> Result<(), AllocError> {
    let g = line(&rt, rt.alloc())?;
    assert_reached(&rt, rt.alloc(), &g)?;
    assert_paths(&rt, rt.alloc(), &g)
}

/// A list of two items.
fn two_items(alloc: Global) -> Result<List<u32>, AllocError> {
    let mut list = List::new(alloc);
    list.push(5)?;
    list.push(7)?;
    Ok(list)
}

// The greatest item of a list, and the items of a copy that is given away.
fn given_away(alloc: Global, list: &List<u32>) -> Result<(Option<u32>, Vec<u32>), AllocError> {
    let copy = list.copy(alloc)?;
    Ok((list.iter().copied().max(), copy.into_vec()))
}

#[test]
fn gives_lists_away(rt: HostRuntime) -> Result<(), AllocError> {
    let list = two_items(rt.alloc())?;
    let (most, items) = given_away(rt.alloc(), &list)?;
    assert_eq!(rt;
        (list.len(), list.is_empty(), list.as_slice()),
        (2, false, items.as_slice()),
        "a list and its copy"
    );
    assert_eq!(rt;
        (most, items.as_slice()),
        (Some(7), [5, 7].as_slice()),
        "the items"
    );
    Ok(())
}

#[test]
fn begins_lists(rt: HostRuntime) {
    let none: List<u32> = List::new(rt.alloc());
    assert!(rt; none.is_empty(), "a list without items");
}

// The boundary of U, and the ends of B.
fn assert_boundary(rt: &impl Abort, alloc: Global, g: &Graph) -> Result<(), AllocError> {
    let side = [false, true, false];
    assert!(rt; g.nodes() == 3 && g.len() == 3, "the line");
    let ends = (g.stream(1).end_from(2), g.stream(1).end_from(1));
    assert_eq!(rt; ends, (1, 2), "the ends of B");
    let members = boundary(alloc, g.streams(), &side)?;
    assert_eq!(rt;
        (members.len(), g.is_cut(&side, members.as_slice())),
        (2, true),
        "the boundary of U"
    );
    Ok(())
}

#[test]
fn makes_boundaries(rt: HostRuntime) -> Result<(), AllocError> {
    let g = line(&rt, rt.alloc())?;
    assert_boundary(&rt, rt.alloc(), &g)
}

/// A cut of the line with these members.
fn cut(alloc: Global, members: &[Member]) -> Result<Classified, AllocError> {
    let side = List::from_vec(Vec::from_slice(alloc, &[false, true, false])?);
    let members = List::from_vec(Vec::from_slice(alloc, members)?);
    Ok(Classified {
        class: Class::Redundant,
        witness: Witness::Cut { side, members },
    })
}

#[test]
fn copies_certificates(rt: HostRuntime) -> Result<(), AllocError> {
    let classified = cut(rt.alloc(), &[member(0, -1), member(2, 1)])?;
    let copy = classified.witness.copy(rt.alloc())?;
    assert!(rt; copy == classified.witness, "an equal certificate");
    Ok(())
}

/// The result of a stream that a cut shows.
fn result(alloc: Global, members: &[Member]) -> Result<StreamResult, AllocError> {
    let classified = cut(alloc, members)?;
    Ok(StreamResult {
        classified: classified.copy(alloc)?,
        flow: 7,
        bounds: Some(Bounds { lo: 6, hi: 8 }),
        least: Some(Bounds { lo: 6, hi: 7 }),
    })
}

fn add_results(
    alloc: Global,
    streams: &mut List<StreamResult>,
    member: Member,
) -> Result<(), AllocError> {
    for _stream in 0..3 {
        streams.push(result(alloc, &[member])?)?;
    }
    Ok(())
}

/// A result of that kind for each stream of the line.
fn results(alloc: Global, member: Member) -> Result<List<StreamResult>, AllocError> {
    let mut streams = List::new(alloc);
    add_results(alloc, &mut streams, member)?;
    Ok(streams)
}

/// The nodal tests of one balance.
fn nodal_tests(alloc: Global) -> Result<List<NodalTest>, AllocError> {
    let mut nodal = List::new(alloc);
    nodal.push(NodalTest {
        node: 1,
        net: 0,
        variance: 2,
        critical: Some(1_000_000_000_000),
        verdict: Verdict::Accept,
    })?;
    Ok(nodal)
}

/// A stage of the line, with one balance tested; its streams have cuts of this member.
fn stage(
    rt: &impl Abort,
    alloc: Global,
    member: Member,
    prices: &[i128],
    solved: Solved,
) -> Result<Stage, AllocError> {
    let prices = List::from_vec(Vec::from_slice(alloc, prices)?);
    let nodal = nodal_tests(alloc)?;
    let graph = line(rt, alloc)?;
    Ok(Stage {
        graph,
        streams: results(alloc, member)?,
        prices,
        solved,
        g: 1,
        h: 0,
        dof: 1,
        low: 0,
        high: None,
        tests: Some(Tests {
            global: GlobalTest {
                critical: None,
                verdict: Verdict::NoCritical,
            },
            nodal,
            measure: List::new(alloc),
        }),
    })
}

// Whether such a stage is well formed.
fn is_formed(
    rt: &impl Abort,
    alloc: Global,
    member: Member,
    prices: &[i128],
    solved: Solved,
) -> Result<bool, AllocError> {
    Ok(stage(rt, alloc, member, prices, solved)?.is_well_formed())
}

const PRICES: [i128; 3] = [0, -4, 4];

#[test]
fn tests_the_form_of_a_stage(rt: HostRuntime) -> Result<(), AllocError> {
    let converged = Solved::Converged(1);
    let cases: [(&str, Member, &[i128], Solved, bool); 5] = [
        ("well formed", member(2, 1), &PRICES, converged, true),
        ("no sign", member(2, 2), &PRICES, converged, false),
        ("no stream", member(3, 1), &PRICES, converged, false),
        ("no prices", member(2, 1), &[], converged, false),
        (
            "more sweeps",
            member(2, 1),
            &PRICES,
            Solved::Unconverged(100_001),
            false,
        ),
    ];
    for (case, member, prices, solved, want) in cases {
        let is_formed = is_formed(&rt, rt.alloc(), member, prices, solved)?;
        assert_eq!(rt; is_formed, want, "{case}");
    }
    Ok(())
}

fn add_stages(
    rt: &impl Abort,
    alloc: Global,
    stages: &mut List<Stage>,
    count: u32,
) -> Result<(), AllocError> {
    for _stage in 0..count {
        stages.push(stage(rt, alloc, member(2, 1), &PRICES, Solved::Converged(1))?)?;
    }
    Ok(())
}

/// This many stages of the line.
fn stages_of(rt: &impl Abort, alloc: Global, count: u32) -> Result<List<Stage>, AllocError> {
    let mut stages = List::new(alloc);
    add_stages(rt, alloc, &mut stages, count)?;
    Ok(stages)
}

// Whether a study of this many stages of the line, with these meters taken, is a well-formed study of this graph.
fn is_study_of(
    rt: &impl Abort,
    alloc: Global,
    graph: &Graph,
    stages: u32,
    taken: &[Taken],
) -> Result<bool, AllocError> {
    let taken = List::from_vec(Vec::from_slice(alloc, taken)?);
    let study = Study {
        stages: stages_of(rt, alloc, stages)?,
        taken,
        stop: None,
    };
    Ok(study.is_well_formed(graph))
}

#[test]
fn tests_the_form_of_a_study(rt: HostRuntime) -> Result<(), AllocError> {
    let graph = line(&rt, rt.alloc())?;
    let bare = Graph::new(rt.alloc(), 3);
    let meter = [Taken { stream: 0, low: 1 }];
    let cases: [(&str, &Graph, u32, &[Taken], bool); 4] = [
        ("no stage", &graph, 0, &[], false),
        ("well formed", &graph, 1, &[], true),
        ("another graph", &bare, 1, &[], false),
        ("no stage after a meter is taken", &graph, 1, &meter, false),
    ];
    for (case, graph, stages, taken, want) in cases {
        let is_study = is_study_of(&rt, rt.alloc(), graph, stages, taken)?;
        assert_eq!(rt; is_study, want, "{case}");
    }
    Ok(())
}

#[test]
fn joins_parts(rt: HostRuntime) -> Result<(), AllocError> {
    let mut parts = Parts::new(rt.alloc(), 4)?;
    let joined = [(2, 3, true), (1, 2, true), (3, 1, false)];
    for (from, to, apart) in joined {
        let stream = Stream {
            from,
            to,
            meas: None,
        };
        assert!(rt; parts.labels().len() == 4, "from {from} to {to}");
        assert_eq!(rt; parts.join(&stream), apart, "from {from} to {to}");
    }
    assert_eq!(rt; parts.labels(), [0, 1, 1, 1].as_slice());
    assert!(rt; parts.label(3) == 1);
    Ok(())
}

fn alike_both_ways(g: &Graph, other: &Graph) -> (bool, bool) {
    (g.alike(other), other.alike(g))
}

// Whether the graph and the graph of these streams are alike, in both orders.
fn are_alike(
    rt: &impl Abort,
    alloc: Global,
    g: &Graph,
    nodes: u32,
    streams: &[Stream],
) -> Result<(bool, bool), AllocError> {
    assert!(rt; nodes >= 1 && nodes <= 1_001, "{nodes} nodes");
    Ok(alike_both_ways(g, &graph_of(alloc, nodes, streams)?.expect(rt, UNFIT)))
}

/// Values and variances may differ, and nothing else.
#[test]
fn alike_graphs(rt: HostRuntime) -> Result<(), AllocError> {
    let g = line(&rt, rt.alloc())?;
    let (a, b, c) = (stream(0, 1, METER), stream(1, 2, None), stream(2, 0, METER));
    let others = [stream(0, 1, OTHER_METER), b, stream(2, 0, OTHER_METER)];
    let cases: [(&str, u32, &[Stream], bool); 8] = [
        ("the same", 3, &[a, b, c], true),
        ("other values", 3, &others, true),
        ("a node more", 4, &[a, b, c], false),
        ("a stream less", 3, &[a, b], false),
        ("another direction", 3, &[a, b, stream(0, 2, METER)], false),
        ("a meter more", 3, &[a, stream(1, 2, METER), c], false),
        ("a meter less", 3, &[stream(0, 1, None), b, c], false),
        ("another end", 3, &[stream(0, 2, METER), b, c], false),
    ];
    for (case, nodes, streams, want) in cases {
        let alike = are_alike(&rt, rt.alloc(), &g, nodes, streams)?;
        assert_eq!(rt; alike, (want, want), "{case}");
    }
    Ok(())
}
