// A study is made and freed.
ghost use Rattle.std.specs.Prelude.{◌≡◌, ◌≢◌, ◌⊎◌, true, false, slice_get, All, IfErr, IfOk, IsSomeAnd};
ghost use Rattle.pb_study.specs.Criticals.{AreCritical};
ghost use Rattle.pb_study.specs.Options.{AreOptions};
ghost use Rattle.pb_study.specs.WellFormed.{IsWellFormedStudy};
ghost use Rattle.pb_stage.specs.Certified.{HasLeastThroughout, IsCertifiedStage, TestsEachRedundant};
ghost use Rattle.pb_elim.specs.Decided.{AreMeasuresRight};
ghost use Rattle.pb_elim.specs.Study.{IsStudyOf};
ghost use Rattle.pb_arrays.specs.Given.{IsNoStream};
ghost use Rattle.plantbal_study_c.specs.StudyStatus.{study_bad_handle, study_bad_stream, study_done, study_no_memory, study_usage};
ghost use Rattle.plantbal_study_c.specs.Reason.{IsReason};
ghost use Rattle.plantbal_study_c.specs.Studied.{IsNotStudied, Studies};

use crate::handle::StudyHandle;
use crate::opened::OpenStudy;
use crate::status::{BAD_HANDLE, BAD_STREAM, DONE, NO_MEMORY, USAGE};
use pb_arrays::{
    NoGraph, PlantbalCriticalRow, PlantbalMeasuredStream, PlantbalStudyOptions, critical_of,
    graph_of, options_of,
};
use pb_elim::study;
use pb_graph::Graph;
use pb_study::{Critical, Options};
use std::alloc::{AllocError, Global};
use std::mem::replace;

/// Makes the study of a process graph of `nodes` nodes, of which node 0 is the environment, and these streams: with the class of each
/// stream, its certificate, its reconciled flow and bounds of it, the statistic, and tests if they are asked for. `limits` are the
/// critical values of the global test; of two for the same degrees of freedom the first counts. `PLANTBAL_USAGE`: the options or the
/// critical values aren't within their limits, or there are no nodes, more than 1,001, or more than 4,000 streams. `PLANTBAL_BAD_STREAM`:
/// the stream whose place is written to `wrong` leads to no node or to where it begins, or its measurement is outside the limits.
/// `PLANTBAL_BAD_HANDLE`: the handle already holds a study, which stays. After these and `PLANTBAL_NO_MEMORY` the handle is as it was.
#[unsafe(no_mangle)]
pub extern "C" fn plantbal_study_new(
    alloc: Global,
    options: &PlantbalStudyOptions,
    limits: &[PlantbalCriticalRow],
    nodes: u32,
    streams: &[PlantbalMeasuredStream],
    study: &mut StudyHandle,
    wrong: &mut usize,
) -> u8
    ensures studies { result ≡ study_done
        → Studies options.now limits.now nodes streams.now study.new.value }
    ensures live { result ≡ study_done → study.new.live ≡ true }
    ensures not_asked { result ≡ study_usage
        → IsNotStudied options.now limits.now nodes streams.now }
    ensures wrong { result ≡ study_bad_stream
        → IsSomeAnd (slice_get streams.now wrong.new) (IsNoStream nodes) }
    ensures there { study.old.live ≡ true → result ≡ study_bad_handle }
    ensures handle { result ≡ study_bad_handle → study.old.live ≡ true }
    ensures kept { result ≡ study_bad_handle → study.new.value ≡ study.old.value }
    ensures same { result ≢ study_done → study.new.live ≡ study.old.live }
    ensures answers { (result ≡ study_done) ⊎ (result ≡ study_usage)
        ⊎ (result ≡ study_bad_stream) ⊎ (result ≡ study_no_memory)
        ⊎ (result ≡ study_bad_handle) }
{
    match replace(study, StudyHandle::none(alloc)).into_box() {
        Some(held) => {
            *study = StudyHandle::of(held);
            BAD_HANDLE
        }
        None => match study_of(alloc, options, limits, nodes, streams) {
            Ok(held) => {
                *study = StudyHandle::of(held);
                DONE
            }
            Err(NotStudied::Usage) => USAGE,
            Err(NotStudied::Stream(place)) => {
                *wrong = place;
                BAD_STREAM
            }
            Err(NotStudied::NoMemory) => NO_MEMORY,
        },
    }
}

/// Why there is no study.
#[derive(Clone, Copy)]
pub(crate) enum NotStudied {
    /// What is asked isn't within its limits.
    Usage,
    /// The stream at this place isn't one of a process graph.
    Stream(usize),
    NoMemory,
}

impl From<AllocError> for NotStudied {
    ghost use Rattle.plantbal_study_c.specs.declared.studies.NotStudied.TheVariants.{NoMemory};

    ghost from_gives = { λ _ why. why ≡ NoMemory };

    fn from(_: AllocError) -> NotStudied {
        NotStudied::NoMemory
    }
}

// The study that is asked for, in a box; or why there is none.
fn study_of(
    alloc: Global,
    options: &PlantbalStudyOptions,
    limits: &[PlantbalCriticalRow],
    nodes: u32,
    streams: &[PlantbalMeasuredStream],
) -> Result<Box<OpenStudy>, NotStudied>
    ensures studies { IfOk result (λ held.
        Studies options.now limits.now nodes streams.now held.value) }
    ensures none { IfErr result (IsReason options.now limits.now nodes streams.now) }
{
    let Some(asked) = options_of(options) else {
        return Err(NotStudied::Usage);
    };
    let Some(critical) = critical_of(alloc, options, limits)? else {
        return Err(NotStudied::Usage);
    };
    match graph_of(alloc, nodes, streams) {
        Ok(graph) => Ok(studied(alloc, &graph, &asked, &critical)?),
        Err(NoGraph::Nodes) => Err(NotStudied::Usage),
        Err(NoGraph::Streams) => Err(NotStudied::Usage),
        Err(NoGraph::Stream(place)) => Err(NotStudied::Stream(place)),
        Err(NoGraph::NoMemory) => Err(NotStudied::NoMemory),
    }
}

// The study of a graph, in a box.
fn studied(
    alloc: Global,
    graph: &Graph,
    options: &Options,
    critical: &Critical,
) -> Result<Box<OpenStudy>, AllocError>
    requires limits { AreOptions options.now }
    requires critical { AreCritical critical.now }
    ensures study { IfOk result (λ held. IsStudyOf graph.now options.now critical.now held.value) }
    ensures certified { IfOk result (λ held. All IsCertifiedStage held.value.stages) }
    ensures tested { IfOk result (λ held. All TestsEachRedundant held.value.stages) }
    ensures least { IfOk result (λ held. All HasLeastThroughout held.value.stages) }
    ensures decided { IfOk result (λ held. All AreMeasuresRight held.value.stages) }
    ensures formed { IfOk result (λ held. IsWellFormedStudy graph.now held.value) }
{
    let made = study(alloc, graph, options, critical)?;
    Ok(Box::new(alloc, OpenStudy::of(made))?)
}

/// Frees the study that the handle holds, if it holds one. The handle may be used for another.
#[unsafe(no_mangle)]
pub extern "C" fn plantbal_study_free(alloc: Global, study: &mut StudyHandle)
    ensures { study.new.live ≡ false }
{
    let _held = replace(study, StudyHandle::none(alloc)).into_box();
}
