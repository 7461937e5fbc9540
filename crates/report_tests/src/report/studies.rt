// Rows of a study that no session gives, and the summary of its stage. What sessions give is data, in examples/worked.

use super::{
    between, list, meters, names_of_meters, options, report, results_of_two_meters, study,
};
use pb_report::write_summary;
use pb_study::{Solved, Stage};
use std::alloc::Global;
use std::test::Fail;

// A meter that reads one gram and one that reads none, each with variance 1.
fn half_a_gram_stage(alloc: Global) -> Result<Stage, Fail> {
    let prices = list(alloc, &[0, -36_028_797_018_963_968])?;
    let graph = meters(alloc, 1, 0, 1)?;
    let streams = results_of_two_meters(alloc, 1, between(-1, 2), None)?;
    Ok(Stage {
        graph,
        streams,
        prices,
        solved: Solved::Unconverged(5000),
        g: 741456,
        h: 0,
        dof: 1,
        low: 499,
        high: Some(1000),
        tests: None,
    })
}

fn half_a_gram_rows(alloc: Global) -> Result<Vec<u8>, Fail> {
    let names = names_of_meters(alloc)?;
    let day = study(alloc, half_a_gram_stage(alloc)?)?;
    report(alloc, names, b"d1", &options(false, 0), day)
}

#[test]
fn bounds_without_least_ones(rt: HostRuntime) -> Result<(), Fail> {
    assert_eq!(rt;
        half_a_gram_rows(rt.alloc())?.as_slice(),
        b"report,d1,0,2,2,10,5000
node,env,0
node,U,-36028797018963968
stream,A,env,U,1,1,redundant,1,-1,2,,,cut,env,-A +B
stream,B,U,env,0,1,redundant,1,-1,2,,,cut,U,+A -B
solved,5000,unconverged,741456,0,1,499,1000
end,d1,0
"
            .as_slice()
    );
    Ok(())
}

// The summary of a stage after a text.
fn summary_of(alloc: Global, stage: &Stage) -> Result<Vec<u8>, Fail> {
    let mut out = Vec::from_slice(alloc, b"before\n")?;
    write_summary(alloc, 4294967295, 5, 42, stage, &mut out)?;
    Ok(out)
}

fn summary_of_half_a_gram(alloc: Global) -> Result<Vec<u8>, Fail> {
    let stage = half_a_gram_stage(alloc)?;
    summary_of(alloc, &stage)
}

#[test]
fn writes_a_summary(rt: HostRuntime) -> Result<(), Fail> {
    assert_eq!(rt;
        summary_of_half_a_gram(rt.alloc())?.as_slice(),
        b"before\nsummary,4294967295,5,42,0,0,2,0,1,unconverged,5000,499,1000\n".as_slice()
    );
    Ok(())
}
