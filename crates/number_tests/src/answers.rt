//! Answers of calls with ample memory that no study needs.

use crate::elim::no_critical;
use crate::statistics::solved_ends;
use pb_classify::classify_in;
use pb_elim::stage;
use pb_forest::Forest;
use pb_gap::{Solver, standard_deviations};
use pb_graph::{Class, Classified, Graph, List, Member, Witness};
use pb_stage::{measure_tests, sum_for};
use pb_study::{Options, Solved, Verdict};
use std::alloc::{AllocError, Global};
use std::process::Abort;
use test_graphs::{UNFIT, graph_of, metered, plain};

/// Two meters that disagree, and a plain stream between them.
fn line(rt: &impl Abort, alloc: Global) -> Result<Graph, AllocError> {
    let streams = [
        metered(0, 1, 102_000_000, 1_000_000_000_000),
        plain(1, 2),
        metered(2, 0, 100_000_000, 1_000_000_000_000),
    ];
    Ok(graph_of(alloc, 3, &streams)?.expect(rt, UNFIT))
}

#[test]
fn deviations_of_meters(rt: HostRuntime) -> Result<(), AllocError> {
    let g = line(&rt, rt.alloc())?;
    let found = standard_deviations(rt.alloc(), g.streams())?;
    assert_eq!(rt;
        found.as_slice(),
        [1_000_000 << 20, 0, 1_000_000 << 20].as_slice(),
        "in units of 2^-20 gram"
    );
    Ok(())
}

/// The measured streams whose sum is the flow of stream 3, which a cycle shows to be of a class.
fn sum_of(alloc: Global, class: Class) -> Result<Option<List<Member>>, AllocError> {
    let steps = List::new(alloc);
    let classified = Classified {
        class,
        witness: Witness::Cycle { steps },
    };
    sum_for(alloc, 3, &classified)
}

#[test]
fn sums_of_streams(rt: HostRuntime) -> Result<(), AllocError> {
    let itself: &[Member] = &[Member { stream: 3, sign: 1 }];
    let cases = [
        (Class::Nonredundant, Some(itself)),
        (Class::Unobservable, None),
    ];
    for (class, wanted) in cases {
        let sum = sum_of(rt.alloc(), class)?;
        let found = match &sum {
            Some(members) => Some(members.as_slice()),
            None => None,
        };
        assert_eq!(rt; found, wanted, "{class:?}");
    }
    Ok(())
}

/// The classes of the line, over its spanning forest.
fn classes_of(rt: &impl Abort, alloc: Global) -> Result<Vec<Class>, AllocError> {
    let g = line(rt, alloc)?;
    let forest = Forest::of(alloc, &g)?;
    let mut classes = Vec::new(alloc);
    for classified in classify_in(alloc, &g, &forest)?.iter() {
        classes.push(classified.class)?;
    }
    Ok(classes)
}

#[test]
fn classes_over_a_forest(rt: HostRuntime) -> Result<(), AllocError> {
    let wanted = [Class::Redundant, Class::Observable, Class::Redundant];
    let found = classes_of(&rt, rt.alloc())?;
    assert_eq!(rt; found.as_slice(), wanted.as_slice());
    Ok(())
}

/// How the sweeps of the line end, over its spanning forest, and what the statistic is then.
fn ends_over_a_forest(
    rt: &impl Abort,
    alloc: Global,
) -> Result<(Solved, (i128, Option<i128>)), AllocError> {
    let g = line(rt, alloc)?;
    let forest = Forest::of(alloc, &g)?;
    let mut solver = Solver::with_forest(alloc, &g, forest)?;
    Ok((solver.solve(10, 5_000), solver.statistic()))
}

/// How the sweeps of a stage of the line end, and what the statistic is then.
fn ends_of_a_stage(
    rt: &impl Abort,
    alloc: Global,
) -> Result<(Solved, (i128, Option<i128>)), AllocError> {
    let g = line(rt, alloc)?;
    let options = Options {
        gap: 10,
        sweeps: 5_000,
        tests: false,
        eliminate: 0,
    };
    let made = stage(alloc, &g, &options, &no_critical(alloc))?;
    Ok((made.solved, (made.low, made.high)))
}

#[test]
fn ends_of_the_line(rt: HostRuntime) -> Result<(), AllocError> {
    let wanted = (Solved::Converged(1), (1_999, Some(2_000)));
    let by_solver = ends_over_a_forest(&rt, rt.alloc())?;
    let by_stage = ends_of_a_stage(&rt, rt.alloc())?;
    assert_eq!(rt; by_solver, wanted, "by the solver");
    assert_eq!(rt; by_stage, wanted, "by the stage");
    Ok(())
}

/// The streams and verdicts of the tests of both meters of the line, at a critical value.
fn tests_of_meters(rt: &impl Abort, alloc: Global) -> Result<Vec<(u32, Verdict)>, AllocError> {
    let g = line(rt, alloc)?;
    assert!(rt; g.len() > 2, "three streams");
    let (low, high) = solved_ends(alloc, &g)?;
    let mut found = Vec::new(alloc);
    for test in measure_tests(alloc, &g, low, high, &[0, 2], 10, 5_000, Some(1_998))?.iter() {
        found.push((test.stream, test.verdict))?;
    }
    Ok(found)
}

#[test]
fn tests_of_both_meters(rt: HostRuntime) -> Result<(), AllocError> {
    let found = tests_of_meters(&rt, rt.alloc())?;
    let wanted = [(0, Verdict::Reject), (2, Verdict::Reject)];
    assert_eq!(rt; found.as_slice(), wanted.as_slice());
    Ok(())
}
