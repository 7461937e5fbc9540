//! What no clause says: that a stage is judged if memory is ample. Each test fails in many reports of `block_cases`.

ghost use Rattle.std.specs.Prelude.{IfOk};
ghost use Rattle.pb_study.specs.Criticals.{AreCritical};

use pb_check::{CheckFault, Place, Test, check};
use pb_elim::study;
use pb_graph::List;
use pb_study::{Critical, CriticalRow, Options, Stage, Study};
use std::alloc::{AllocError, Global};
use std::process::Abort;
use test_graphs::{UNFIT, graph_of, metered};

/// The critical value of the global test for one degree of freedom, and no other.
fn critical_of(alloc: Global) -> Result<Critical, AllocError>
    ensures { IfOk result AreCritical }
{
    let mut global = List::new(alloc);
    global.push(CriticalRow {
        dof: 1,
        value: 3_841,
    })?;
    Ok(Critical {
        global,
        nodal: None,
        measure: None,
    })
}

/// The study, with tests, of two meters that disagree by two tonnes.
fn study_of(rt: &impl Abort, alloc: Global) -> Result<Study, AllocError> {
    let options = Options {
        gap: 10,
        sweeps: 5_000,
        tests: true,
        eliminate: 0,
    };
    let into = metered(0, 1, 102_000_000, 1_000_000_000_000);
    let out = metered(1, 0, 100_000_000, 1_000_000_000_000);
    let g = graph_of(alloc, 2, &[into, out])?.expect(rt, UNFIT);
    let critical = critical_of(alloc)?;
    study(alloc, &g, &options, &critical)
}

/// The last stage of a study.
fn last_stage(rt: &impl Abort, study: Study) -> Stage {
    let Some(stage) = study.stages.into_vec().pop() else {
        panic!(rt; "no stage");
    };
    stage
}

/// The answer to the stage of that study with this as the low end of its statistic.
fn answer_to(
    rt: &impl Abort,
    alloc: Global,
    low: i128,
) -> Result<Result<(), CheckFault>, AllocError> {
    let mut stage = last_stage(rt, study_of(rt, alloc)?);
    stage.low = low;
    assert!(rt; stage.is_well_formed(), "the form of the stage");
    Ok(check(alloc, &stage, 10, 5_000))
}

/// The statistic is at least 1,999 thousandths, and not 2,000.
#[test]
fn judges_a_stage(rt: HostRuntime) -> Result<(), AllocError> {
    let fault = CheckFault::At {
        test: Test::Statistic,
        place: Place::Whole,
        stated: 2_000,
        found: 1_999,
    };
    for (low, wanted) in [(1_999, Ok(())), (2_000, Err(fault))] {
        let answer = answer_to(&rt, rt.alloc(), low)?;
        assert_eq!(rt; answer, wanted, "{low}");
    }
    Ok(())
}
