//! What flows carry of a component, worked by hand. The component balances of small plants are data, in examples/worked.

ghost use Rattle.std.specs.Prelude.{◌↔◌, IfSome, IsTrue};
ghost use Rattle.pb_facts.specs.Grade.{IsGrade};

use crate::elim::study_of;
use pb_facts::Grade;
use pb_grades::{ComponentFault, carried_by, component_graph};
use pb_graph::{Graph, Stream};
use pb_limits::{MOST_GRADE, MOST_GRADE_VARIANCE};
use pb_study::{Stage, Study};
use std::alloc::{AllocError, Global};
use std::process::Abort;
use test_graphs::{metered, plain};

/// A flow with the grade and the variance of an assay, and what it carries: grams with their variance.
type Carried = (i128, (i64, i64), Option<(i128, i128)>);

const MOST: i128 = 1_000_000_000_000_000;

/// What flows carry by grades.
const CARRIED: &[Carried] = &[
    // 101 tonnes at two per cent, surely and give or take ten parts per million
    (101_000_000, (20_000, 0), Some((2_020_000, 1))),
    (101_000_000, (20_000, 100), Some((2_020_000, 1_020_101))),
    // less than a gram either way, rounded down
    (-3, (333_333, 0), Some((-1, 1))),
    (4, (333_333, 9), Some((1, 2))),
    (-7, (333_333, 100_000_000), Some((-3, 2))),
    // no flow
    (0, (333_333, 100_000_000), Some((0, 1))),
    // the greatest flow, and one gram more
    (MOST, (1_000_000, 0), Some((MOST, 1))),
    (-MOST, (1_000_000, 0), Some((-MOST, 1))),
    (MOST + 1, (1, 0), None),
    (-MOST - 1, (1, 0), None),
    // the greatest variance, and more
    (MOST, (0, 9_999), Some((0, 9_999_000_000_000_000_000_001))),
    (MOST, (0, 10_000), None),
    // flows whose square leaves 128 bits
    (i128::MAX, (0, 1), None),
    (i128::MIN, (1_000_000, 100_000_000), None),
];

fn grade(ppm: i64, variance: i64) -> Grade {
    Grade { ppm, variance }
}

fn assert_carried(rt: &impl Abort, case: &Carried) {
    let &(flow, (ppm, variance), wanted) = case;
    let grade = grade(ppm, variance);
    assert!(rt; grade.is_within_limits(), "{grade:?}");
    let found = carried_by(flow, grade).map(|meas| (meas.value, meas.variance));
    assert_eq!(rt; found, wanted, "{flow} by {grade:?}");
}

/// What flows carry: rounding, signs and limits.
#[test]
fn carried(rt: HostRuntime) {
    for case in CARRIED {
        assert_carried(&rt, case);
    }
}

/// Grades and variances, and whether they are within their limits.
const LIMITS: &[(i64, i64, bool)] = &[
    (0, 0, true),
    (MOST_GRADE, MOST_GRADE_VARIANCE, true),
    (1_000_000, 100_000_000, true),
    (1_000_001, 0, false),
    (0, 100_000_001, false),
    (-1, 0, false),
    (0, -1, false),
];

/// The limits of a grade.
#[test]
fn limits_of_a_grade(rt: HostRuntime) {
    for &(ppm, variance, wanted) in LIMITS {
        assert_eq!(&rt;
            grade(ppm, variance).is_within_limits(),
            wanted,
            "{ppm} {variance}"
        );
    }
}

/// A stream: its ends, and what was measured of it, with the variance.
type Row = (u32, u32, Option<(i128, i128)>);

fn stream_of(row: &Row) -> Stream {
    let &(from, to, meas) = row;
    match meas {
        None => plain(from, to),
        Some((value, variance)) => metered(from, to, value, variance),
    }
}

fn streams_of(alloc: Global, rows: &[Row]) -> Result<Vec<Stream>, AllocError> {
    let mut streams = Vec::new(alloc);
    for row in rows {
        streams.push(stream_of(row))?;
    }
    Ok(streams)
}

fn grades_of(alloc: Global, rows: &[Option<(i64, i64)>]) -> Result<Vec<Option<Grade>>, AllocError> {
    let mut grades = Vec::new(alloc);
    for row in rows {
        grades.push(row.map(|(ppm, variance)| grade(ppm, variance)))?;
    }
    Ok(grades)
}

/// Whether a grade, if there is one, is within its limits.
fn is_grade(grade: &Option<Grade>) -> bool
    ensures { IsTrue result ↔ IfSome grade.now IsGrade }
{
    match grade {
        None => true,
        Some(grade) => grade.is_within_limits(),
    }
}

/// The component graph by the flows of a stage.
fn component_by(
    rt: &impl Abort,
    alloc: Global,
    stage: &Stage,
    grades: &[Option<Grade>],
) -> Result<Graph, ComponentFault> {
    let streams = stage.graph.streams().len();
    let each = stage.streams.len() == streams && grades.len() == streams;
    assert!(rt; each, "a result and a grade for each stream");
    assert!(rt; grades.iter().all(|grade| is_grade(grade)), "grades");
    component_graph(alloc, &stage.graph, stage.streams.as_slice(), grades)
}

/// The component graph by the flows of a study of one stage.
fn component_after(
    rt: &impl Abort,
    alloc: Global,
    s: &Study,
    grades: &[Option<Grade>],
) -> Result<Graph, ComponentFault> {
    assert!(rt; s.stages.len() == 1, "one stage");
    component_by(rt, alloc, s.stages.at(0), grades)
}

/// The component graph by the flows of the study of a graph of these streams.
fn component_of(
    rt: &impl Abort,
    alloc: Global,
    nodes: u32,
    streams: &[Row],
    grades: &[Option<(i64, i64)>],
) -> Result<Graph, ComponentFault> {
    let grades = grades_of(alloc, grades)?;
    let streams = streams_of(alloc, streams)?;
    let s = study_of(rt, alloc, nodes, &streams, 10, 5_000)?;
    component_after(rt, alloc, &s, &grades)
}

/// Two batches, the greatest one and one of a gram, and what leaves with both.
const BATCHES: &[Row] = &[(0, 1, Some((MOST, 1))), (0, 1, Some((1, 1))), (1, 0, None)];

/// The streams of a component graph, or the first one that is over the limits.
#[test]
fn component_graphs(rt: HostRuntime) {
    let cases: [(&[Option<(i64, i64)>], Result<u32, ComponentFault>); 4] = [
        (&[None, None, None], Ok(3)),
        (&[Some((1_000_000, 0)), None, None], Ok(3)),
        // what leaves is a gram too much to be squared
        (
            &[Some((1_000_000, 0)), None, Some((1, 0))],
            Err(ComponentFault::Over(2)),
        ),
        // a variance above the limit comes before it
        (
            &[Some((0, 10_000)), None, Some((1, 0))],
            Err(ComponentFault::Over(0)),
        ),
    ];
    for (grades, wanted) in cases {
        let found = component_of(&rt, rt.alloc(), 2, BATCHES, grades).map(|g| g.len());
        assert_eq!(&rt; found, wanted, "{grades:?}");
    }
}
