ghost use Rattle.std.specs.Prelude.{IfOk};
ghost use Rattle.pb_plan.specs.Window.{IsWindow};

use pb_classify::classify;
use pb_graph::{Class, Classified, Graph, List, Meas};
use pb_plan::{
    Plant, PlantArc, Service, Source, Span, Window, WindowAssembly, WindowFault, WindowNode,
    is_plant, node_code, stream_code, window_graph, window_names, window_of,
};
use pb_rows::Names;
use std::alloc::{AllocError, Global};
use std::process::Abort;

// An arc of a plant: its ends, whether it is a tank's inventory, and its days of service.
type Row = (u32, u32, bool, Option<(i32, i32)>);

// What a window should have: its nodes by name with their numbers in the plant, its streams by name with their ends, and the days of its
// contents.
struct Case {
    name: &'static str,
    nodes: u32,
    arcs: &'static [Row],
    keeps_idle: bool,
    spans: &'static [(i32, i32)],
    window_nodes: &'static [(&'static str, u32)],
    window_streams: &'static [(&'static str, u32, u32)],
    days: &'static [i32],
}

// A tank with a stream into it and one out of it.
const TANK: &[Row] = &[(1, 0, true, None), (0, 1, false, None), (1, 0, false, None)];

// The same, in service on the days 2 and 3, with its first stream; then another stream takes its place.
const COMMISSIONED: &[Row] = &[
    (1, 0, true, Some((2, 3))),
    (0, 1, false, Some((2, 3))),
    (1, 0, false, Some((1, 4))),
    (0, 1, false, Some((4, 4))),
];

const CASES: &[Case] = &[
    Case {
        name: "no period",
        nodes: 1,
        arcs: TANK,
        keeps_idle: true,
        spans: &[],
        window_nodes: &[],
        window_streams: &[],
        days: &[],
    },
    Case {
        name: "one period of a tank",
        nodes: 1,
        arcs: TANK,
        keeps_idle: true,
        spans: &[(10, 10)],
        window_nodes: &[("n1.1", 1)],
        window_streams: &[
            ("s1.1", 0, 1),
            ("s1.2", 1, 0),
            ("c0.0", 0, 1),
            ("c1.0", 1, 0),
        ],
        days: &[9, 10],
    },
    Case {
        name: "two periods of a tank",
        nodes: 1,
        arcs: TANK,
        keeps_idle: true,
        spans: &[(10, 10), (11, 11)],
        window_nodes: &[("n1.1", 1), ("n2.1", 1)],
        window_streams: &[
            ("s1.1", 0, 1),
            ("s1.2", 1, 0),
            ("s2.1", 0, 2),
            ("s2.2", 2, 0),
            ("c0.0", 0, 1),
            ("c1.0", 1, 2),
            ("c2.0", 2, 0),
        ],
        days: &[9, 10, 11],
    },
    Case {
        name: "a tank in service for two of four days",
        nodes: 1,
        arcs: COMMISSIONED,
        keeps_idle: false,
        spans: &[(1, 1), (2, 2), (3, 3), (4, 4)],
        window_nodes: &[("n1.1", 1), ("n2.1", 1), ("n3.1", 1), ("n4.1", 1)],
        window_streams: &[
            ("s1.0", 1, 0),
            ("s2.1", 0, 2),
            ("s2.2", 2, 0),
            ("s3.1", 0, 3),
            ("s3.2", 3, 0),
            ("s4.0", 4, 0),
            ("s4.1", 0, 4),
            ("c1.0", 0, 2),
            ("c2.0", 2, 3),
            ("c3.0", 3, 0),
        ],
        days: &[1, 2, 3],
    },
    Case {
        name: "a tank commissioned and taken out within one period",
        nodes: 1,
        arcs: &[(0, 1, false, None), (1, 0, true, Some((12, 15)))],
        keeps_idle: false,
        spans: &[(10, 19)],
        window_nodes: &[("n1.1", 1)],
        window_streams: &[("s1.0", 0, 1), ("c0.1", 0, 1), ("c1.1", 1, 0)],
        days: &[11, 15],
    },
    Case {
        name: "idle units kept",
        nodes: 2,
        arcs: &[(0, 2, false, Some((5, 5)))],
        keeps_idle: true,
        spans: &[(4, 4), (5, 5)],
        window_nodes: &[("n1.1", 1), ("n1.2", 2), ("n2.1", 1), ("n2.2", 2)],
        window_streams: &[("s2.0", 0, 4)],
        days: &[],
    },
    Case {
        name: "idle units left out",
        nodes: 2,
        arcs: &[(0, 2, false, Some((5, 5)))],
        keeps_idle: false,
        spans: &[(4, 4), (5, 5)],
        window_nodes: &[("n2.1", 2)],
        window_streams: &[("s2.0", 0, 1)],
        days: &[],
    },
];

fn arcs_of(alloc: Global, rows: &[Row]) -> Result<List<PlantArc>, AllocError> {
    let mut arcs = List::new(alloc);
    for &(from, to, is_tank, days) in rows {
        arcs.push(PlantArc {
            from,
            to,
            is_tank,
            service: days.map(|(since, until)| Service { since, until }),
        })?;
    }
    Ok(arcs)
}

fn spans_of(alloc: Global, days: &[(i32, i32)]) -> Result<Vec<Span>, AllocError> {
    let mut spans = Vec::new(alloc);
    for &(first, last) in days {
        spans.push(Span { first, last })?;
    }
    Ok(spans)
}

fn plant_of(
    alloc: Global,
    nodes: u32,
    rows: &[Row],
    keeps_idle: bool,
) -> Result<Plant, AllocError> {
    Ok(Plant {
        nodes,
        arcs: arcs_of(alloc, rows)?,
        keeps_idle,
    })
}

// The window of a plant over some periods.
fn window_over(
    rt: &impl Abort,
    alloc: Global,
    plant: &Plant,
    spans: &[Span],
) -> Result<Window, WindowFault>
    ensures { IfOk result IsWindow }
{
    assert!(rt; is_plant(plant), "a plant");
    assert!(rt; spans.len() <= 31, "periods");
    assert!(rt;
        spans
            .iter()
            .all(|span| span.first >= -25_567 && span.first <= 84_005),
        "days"
    );
    window_of(alloc, plant, spans)
}

// The window of a plant of these arcs.
fn window_by(
    rt: &impl Abort,
    alloc: Global,
    nodes: u32,
    rows: &[Row],
    keeps_idle: bool,
    days: &[(i32, i32)],
) -> Result<Window, WindowFault>
    ensures { IfOk result IsWindow }
{
    let plant = plant_of(alloc, nodes, rows, keeps_idle)?;
    let spans = spans_of(alloc, days)?;
    window_over(rt, alloc, &plant, &spans)
}

fn assert_node(
    rt: &impl Abort,
    alloc: Global,
    node: &WindowNode,
    wanted: &(&str, u32),
) -> Result<(), AllocError> {
    let name = node_code(alloc, node)?;
    assert_eq!(rt; (name.as_str(), node.node), *wanted, "a node");
    Ok(())
}

fn assert_nodes(
    rt: &impl Abort,
    alloc: Global,
    case: &Case,
    window: &Window,
) -> Result<(), AllocError> {
    assert_eq!(rt;
        window.nodes.len(),
        case.window_nodes.len(),
        "{}",
        case.name
    );
    for (node, wanted) in window.nodes.iter().zip(case.window_nodes) {
        assert_node(rt, alloc, node, wanted)?;
    }
    Ok(())
}

fn assert_streams(
    rt: &impl Abort,
    alloc: Global,
    case: &Case,
    window: &Window,
) -> Result<(), AllocError> {
    assert_eq!(rt;
        window.streams.len(),
        case.window_streams.len(),
        "{}",
        case.name
    );
    for (stream, wanted) in window.streams.iter().zip(case.window_streams) {
        let name = stream_code(alloc, stream)?;
        assert_eq!(rt;
            (name.as_str(), stream.from, stream.to),
            *wanted,
            "{}",
            case.name
        );
    }
    Ok(())
}

fn assert_days(rt: &impl Abort, case: &Case, window: &Window) {
    let mut seen = 0;
    for stream in window.streams.iter() {
        if let Source::Content(day) = stream.source {
            assert!(rt; seen < case.days.len(), "{}", case.name);
            assert_eq!(rt; day, case.days[seen], "{}", case.name);
            seen += 1;
        }
    }
    assert_eq!(rt; seen, case.days.len(), "{}", case.name);
}

fn assert_named(rt: &impl Abort, case: &Case, names: &Names) {
    assert_eq!(rt;
        (names.nodes.len(), names.streams.len()),
        (1 + case.window_nodes.len(), case.window_streams.len()),
        "{}",
        case.name
    );
    for (name, wanted) in names.streams.iter().zip(case.window_streams) {
        assert_eq!(rt; name.as_str(), wanted.0, "{}", case.name);
    }
}

// The names of the environment, of the nodes and of the streams, in order.
fn assert_names(
    rt: &impl Abort,
    alloc: Global,
    case: &Case,
    window: &Window,
) -> Result<(), AllocError> {
    let names = window_names(alloc, window)?;
    assert_named(rt, case, &names);
    Ok(())
}

fn assert_window(
    rt: &impl Abort,
    alloc: Global,
    case: &Case,
    window: &Window,
) -> Result<(), AllocError> {
    assert_nodes(rt, alloc, case, window)?;
    assert_streams(rt, alloc, case, window)?;
    assert_days(rt, case, window);
    assert_names(rt, alloc, case, window)?;
    Ok(())
}

fn assert_case(rt: &impl Abort, alloc: Global, case: &Case) -> Result<(), WindowFault> {
    let window = window_by(
        rt,
        alloc,
        case.nodes,
        case.arcs,
        case.keeps_idle,
        case.spans,
    )?;
    assert_window(rt, alloc, case, &window)?;
    Ok(())
}

/// Windows worked out by hand.
#[test]
fn windows(rt: HostRuntime) -> Result<(), WindowFault> {
    for case in CASES {
        assert_case(&rt, rt.alloc(), case)?;
    }
    Ok(())
}

// A hundred units with a stream each.
fn units(alloc: Global) -> Result<Vec<Row>, AllocError> {
    let mut rows: Vec<Row> = Vec::new(alloc);
    for unit in 1..101 {
        rows.push((0, unit, false, None))?;
    }
    Ok(rows)
}

// The window of this many days of these units.
fn window_of_units(
    rt: &impl Abort,
    alloc: Global,
    days: &[(i32, i32)],
) -> Result<Window, WindowFault> {
    let rows = units(alloc)?;
    window_by(rt, alloc, 100, &rows, true, days)
}

// The numbers of its nodes and streams.
fn size_of(
    rt: &impl Abort,
    alloc: Global,
    days: &[(i32, i32)],
) -> Result<(usize, usize), WindowFault> {
    let window = window_of_units(rt, alloc, days)?;
    Ok((window.nodes.len(), window.streams.len()))
}

/// As many nodes as a graph may have, and one more period.
#[test]
fn greatest_window(rt: HostRuntime) {
    let ten = size_of(&rt, rt.alloc(), &[(1, 1); 10]);
    assert_eq!(&rt; ten, Ok((1_000, 1_000)), "ten days");
    let eleven = size_of(&rt, rt.alloc(), &[(1, 1); 11]);
    assert_eq!(&rt; eleven, Err(WindowFault::TooGreat), "eleven days");
}

fn read(value: i128) -> Option<Meas> {
    Some(Meas { value, variance: 1 })
}

// The graph of the two periods of a tank, by what was measured.
fn graph_by(
    rt: &impl Abort,
    alloc: Global,
    measured: &[Option<Meas>],
) -> Result<Graph, WindowAssembly> {
    let Ok(window) = window_by(rt, alloc, 1, TANK, true, &[(10, 10), (11, 11)]) else {
        return Err(WindowAssembly::NoMemory);
    };
    assert!(rt;
        measured.len() == window.streams.len(),
        "a measurement for each stream"
    );
    window_graph(alloc, &window, measured)
}

fn assert_are(rt: &impl Abort, classes: &[Classified], wanted: &[Class]) {
    assert_eq!(rt; classes.len(), wanted.len(), "streams");
    for (found, wanted) in classes.iter().zip(wanted) {
        assert_eq!(rt; found.class, *wanted, "a class");
    }
}

fn assert_classes(
    rt: &impl Abort,
    alloc: Global,
    g: &Graph,
    wanted: &[Class],
) -> Result<(), AllocError> {
    let classes = classify(alloc, g)?;
    assert_are(rt, classes.as_slice(), wanted);
    Ok(())
}

/// A tank is read on the day before the first period and at the end of the second one, and not between: the flows determine what it
/// holds there.
#[test]
fn missed_dip(rt: HostRuntime) -> Result<(), WindowAssembly> {
    let measured = [
        read(50),
        read(10),
        read(0),
        read(10),
        read(0),
        None,
        read(30),
    ];
    let wanted = [
        Class::Redundant,
        Class::Redundant,
        Class::Redundant,
        Class::Redundant,
        Class::Redundant,
        Class::Observable,
        Class::Redundant,
    ];
    let g = graph_by(&rt, rt.alloc(), &measured)?;
    assert_classes(&rt, rt.alloc(), &g, &wanted)?;
    Ok(())
}

/// A stream of the second period is over the limits.
#[test]
fn over_in_the_second_period(rt: HostRuntime) {
    let great = read(1_000_000_000_000_001);
    let measured = [read(0), read(0), read(0), great, None, None, None];
    let found = graph_by(&rt, rt.alloc(), &measured).map(|g| g.len());
    assert_eq!(&rt;
        found,
        Err(WindowAssembly::Over(3)),
        "the second flow of the second period"
    );
}
