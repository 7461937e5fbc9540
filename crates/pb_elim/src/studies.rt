// The whole study: rounds until the rule says to stop.

ghost use Rattle.std.specs.Prelude.{◌<◌, None, All, length, IfOk};
ghost use Rattle.pb_graph.specs.ProcessGraph.{IsProcessGraph, unmeasured_at};
ghost use Rattle.pb_study.specs.WellFormed.{IsWellFormed, IsWellFormedStudy};
ghost use Rattle.pb_classify.specs.Classification.{IsClassification};
ghost use Rattle.pb_study.specs.Options.{AreOptions};
ghost use Rattle.pb_study.specs.Criticals.{AreCritical};
ghost use Rattle.pb_elim.specs.Stage.{IsStageOf};
ghost use Rattle.pb_elim.specs.Study.{IsStudyOf};
ghost use Rattle.pb_stage.specs.Certified.{IsCertifiedStage, TestsEachRedundant, HasLeastThroughout};
ghost use Rattle.pb_elim.specs.Decided.{AreMeasuresRight};
ghost use Rattle.pb_elim.specs.Rounds.{AreAllRoundsOf};

use crate::elimination::{next_at, stop_at};
use crate::stages::{stage, stage_classed};
use pb_graph::{Classified, Graph, List};
use pb_study::{Critical, Options, Stage, Study};
use std::alloc::{AllocError, Global};

// The stage of a graph without the measurement of a stream.
fn stage_without(
    alloc: Global,
    graph: &Graph,
    stream: u32,
    options: &Options,
    critical: &Critical,
) -> Result<Stage, AllocError>
    requires limits { AreOptions options.now }
    requires critical { AreCritical critical.now }
    requires stream { stream < length graph.now.streams }
    ensures stage { IfOk result (IsStageOf
        (record graph.now { streams = unmeasured_at stream graph.now.streams })
        options.now critical.now) }
    ensures formed { IfOk result IsWellFormed }
{
    let without = graph.unmeasure(alloc, stream)?;
    stage(alloc, &without, options, critical)
}

// All rounds of a study from its first stage on, with no reason to stop recorded yet: each stage is without what was taken before it.
fn rounds(
    alloc: Global,
    graph: &Graph,
    first: Stage,
    options: &Options,
    critical: &Critical,
) -> Result<Study, AllocError>
    requires limits { AreOptions options.now }
    requires critical { AreCritical critical.now }
    requires first { IsStageOf graph.now options.now critical.now first }
    requires graph { IsProcessGraph first.graph }
    requires formed { IsWellFormed first }
    ensures { IfOk result (AreAllRoundsOf graph.now options.now critical.now) }
{
    let mut stages = List::new(alloc);
    let mut taken = List::new(alloc);
    stages.push(first)?;
    for count in 0..options.eliminate {
        let last = stages.at(count as usize);
        let Some(suspect) = next_at(options, critical, count, &last.tests) else {
            return Ok(Study {
                stages,
                taken,
                stop: None,
            });
        };
        let next = stage_without(alloc, &last.graph, suspect.stream, options, critical)?;
        stages.push(next)?;
        taken.push(suspect)?;
    }
    Ok(Study {
        stages,
        taken,
        stop: None,
    })
}

/// The study of a graph: its stage, with the class of each stream, reconciled flows, bounds, least bounds, prices, the statistic, and
/// tests if they are asked for. If elimination is asked for, there are also the stages of the graph without the streams that are taken
/// one by one, each time the worst suspect, and the reason why the elimination stopped (Narasimhan and Jordache, serial elimination).
pub fn study(
    alloc: Global,
    graph: &Graph,
    options: &Options,
    critical: &Critical,
) -> Result<Study, AllocError>
    requires limits { AreOptions options.now }
    requires critical { AreCritical critical.now }
    ensures study { IfOk result (IsStudyOf graph.now options.now critical.now) }
    ensures certified { IfOk result (λ study. All IsCertifiedStage study.stages) }
    ensures tested { IfOk result (λ study. All TestsEachRedundant study.stages) }
    ensures least { IfOk result (λ study. All HasLeastThroughout study.stages) }
    ensures decided { IfOk result (λ study. All AreMeasuresRight study.stages) }
    ensures formed { IfOk result (IsWellFormedStudy graph.now) }
{
    let first = stage(alloc, graph, options, critical)?;
    study_from(alloc, graph, first, options, critical)
}

/// The study of a graph whose classes are known, with their certificates: the same as `study` gives.
pub fn study_classed(
    alloc: Global,
    graph: &Graph,
    classes: List<Classified>,
    options: &Options,
    critical: &Critical,
) -> Result<Study, AllocError>
    requires limits { AreOptions options.now }
    requires critical { AreCritical critical.now }
    requires classes { IsClassification graph.now classes }
    ensures study { IfOk result (IsStudyOf graph.now options.now critical.now) }
    ensures certified { IfOk result (λ study. All IsCertifiedStage study.stages) }
    ensures tested { IfOk result (λ study. All TestsEachRedundant study.stages) }
    ensures least { IfOk result (λ study. All HasLeastThroughout study.stages) }
    ensures decided { IfOk result (λ study. All AreMeasuresRight study.stages) }
    ensures formed { IfOk result (IsWellFormedStudy graph.now) }
{
    let first = stage_classed(alloc, graph, classes, options, critical)?;
    study_from(alloc, graph, first, options, critical)
}

// The study of a graph from its first stage on.
fn study_from(
    alloc: Global,
    graph: &Graph,
    first: Stage,
    options: &Options,
    critical: &Critical,
) -> Result<Study, AllocError>
    requires limits { AreOptions options.now }
    requires critical { AreCritical critical.now }
    requires first { IsStageOf graph.now options.now critical.now first }
    requires graph { IsProcessGraph first.graph }
    requires formed { IsWellFormed first }
    ensures study { IfOk result (IsStudyOf graph.now options.now critical.now) }
    ensures certified { IfOk result (λ study. All IsCertifiedStage study.stages) }
    ensures tested { IfOk result (λ study. All TestsEachRedundant study.stages) }
    ensures least { IfOk result (λ study. All HasLeastThroughout study.stages) }
    ensures decided { IfOk result (λ study. All AreMeasuresRight study.stages) }
    ensures formed { IfOk result (IsWellFormedStudy graph.now) }
{
    let mut study = rounds(alloc, graph, first, options, critical)?;
    let count = study.taken.len();
    let last = study.stages.at(count);
    study.stop = stop_at(options, critical, count as u32, &last.tests);
    Ok(study)
}
