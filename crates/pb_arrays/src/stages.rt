// A study and its stages.
ghost use Rattle.std.specs.Prelude.{◌≡◌, None, slice_get, IfSome, IsSomeAnd};
ghost use Rattle.pb_arrays.specs.Found.{price_in_stage, stage_in};
ghost use Rattle.pb_arrays.specs.ShownStage.{ShowsCritical, ShowsIf, ShowsSolved, ShowsStage, ShowsStudy, ShowsTaken, stop_number, verdict_number};
ghost use Rattle.pb_arrays.specs.Wide.{wide_value};

use crate::numbers::{PlantbalWide, wide_of};
use pb_study::{Solved, Stage, Stop, Study, Taken, Verdict};

/// What there is of a study: stages, with the streams whose measurements were taken out between them. What there are n of has the
/// places from 0 to n - 1.
#[repr(C)]
#[derive(Clone, Copy)]
pub struct PlantbalStudied {
    /// How many stages there are.
    pub stages: u64,
    /// How many measurements were taken out, one between each stage and the next.
    pub taken: u64,
    /// Why the elimination stopped: 0 if none was asked for, 1 if the global test accepts, 2 if it is undecided, 3 if there is no critical
    /// value, 4 if there is nothing to test, 5 if no measurement is a suspect, 6 if all rounds are done.
    pub stop: u8,
}

/// A stage of a study.
#[repr(C)]
#[derive(Clone, Copy)]
pub struct PlantbalStage {
    /// Whether the gap was met.
    pub converged: bool,
    /// Whether the weighted squares have a high end.
    pub has_high: bool,
    /// Whether there are tests.
    pub tested: bool,
    /// Whether there is a critical value of the global test. Without tests there is none.
    pub has_critical: bool,
    /// What the global test says: 0 reject, 1 accept, 2 undecided, 3 no critical value, 4 nothing to test. 4 without tests.
    pub verdict: u8,
    /// The sweeps that were done.
    pub sweeps: u32,
    /// The number h of the gap.
    pub h: u32,
    /// The degrees of freedom.
    pub dof: u32,
    /// The number g of the gap.
    pub g: u64,
    /// How many tests of groups of nodes there are.
    pub nodal: u64,
    /// How many tests of measurements there are.
    pub measure: u64,
    /// The critical value of the global test in thousandths.
    pub critical: i64,
    /// The weighted squares in thousandths are at least this much.
    pub low: PlantbalWide,
    /// They are at most this much.
    pub high: PlantbalWide,
}

/// A stream whose measurement was taken out as a suspect.
#[repr(C)]
#[derive(Clone, Copy)]
pub struct PlantbalTaken {
    /// The place of the stream.
    pub stream: u32,
    /// How far the weighted squares fall without it at least, in thousandths.
    pub low: PlantbalWide,
}

/// What there is of a study.
pub fn studied(study: &Study) -> PlantbalStudied
    ensures { ShowsStudy study.now result }
{
    PlantbalStudied {
        stages: study.stages.len() as u64,
        taken: study.taken.len() as u64,
        stop: stop_number(study.stop),
    }
}

/// The stage at a place; `None` iff there is none.
pub fn stage_at(study: &Study, stage: usize) -> Option<PlantbalStage>
    ensures value { IfSome result (λ shown.
        IsSomeAnd (stage_in study.now stage) (λ stage. ShowsStage stage shown)) }
    ensures none { result ≡ None → stage_in study.now stage ≡ None }
{
    match study.stages.as_slice().get(stage) {
        Some(stage) => Some(shown_stage(stage)),
        None => None,
    }
}

/// The price of a node in a stage, in units of 2^-56; `None` iff there is no such stage or node.
pub fn price_at(study: &Study, stage: usize, node: u32) -> Option<PlantbalWide>
    ensures value { IfSome result (λ shown.
        price_in_stage study.now stage node ≡ Some (wide_value shown)) }
    ensures none { result ≡ None → price_in_stage study.now stage node ≡ None }
{
    match study.stages.as_slice().get(stage) {
        Some(stage) => match stage.prices.as_slice().get(node as usize) {
            Some(price) => Some(wide_of(*price)),
            None => None,
        },
        None => None,
    }
}

/// The stream that was taken after a stage; `None` iff there is none.
pub fn taken_at(study: &Study, place: usize) -> Option<PlantbalTaken>
    ensures value { IfSome result (λ shown.
        IsSomeAnd (slice_get study.now.taken place) (λ taken. ShowsTaken taken shown)) }
    ensures none { result ≡ None → slice_get study.now.taken place ≡ None }
{
    match study.taken.as_slice().get(place) {
        Some(taken) => Some(shown_taken(taken)),
        None => None,
    }
}

// A stream that was taken, as C has it.
fn shown_taken(taken: &Taken) -> PlantbalTaken
    ensures { ShowsTaken taken.now result }
{
    PlantbalTaken {
        stream: taken.stream,
        low: wide_of(taken.low),
    }
}

// A stage as C has it.
fn shown_stage(stage: &Stage) -> PlantbalStage
    ensures { ShowsStage stage.now result }
{
    let (converged, sweeps) = solved(stage.solved);
    let (has_high, high) = wide_if(stage.high);
    let mut shown = PlantbalStage {
        converged,
        has_high,
        tested: false,
        has_critical: false,
        verdict: 4,
        sweeps,
        h: stage.h,
        dof: stage.dof,
        g: stage.g,
        nodal: 0,
        measure: 0,
        critical: 0,
        low: wide_of(stage.low),
        high,
    };
    if let Some(tests) = &stage.tests {
        let (has_critical, critical) = critical_if(tests.global.critical);
        shown.tested = true;
        shown.has_critical = has_critical;
        shown.critical = critical;
        shown.verdict = verdict_number(tests.global.verdict);
        shown.nodal = tests.nodal.len() as u64;
        shown.measure = tests.measure.len() as u64;
    }
    shown
}

// Whether the gap was met, and the sweeps that were done.
fn solved(solved: Solved) -> (bool, u32)
    ensures { ShowsSolved solved result.0 result.1 }
{
    match solved {
        Solved::Converged(sweeps) => (true, sweeps),
        Solved::Unconverged(sweeps) => (false, sweeps),
    }
}

/// Whether there is a number, and the number.
pub(crate) fn wide_if(value: Option<i128>) -> (bool, PlantbalWide)
    ensures { ShowsIf value result.0 result.1 }
{
    match value {
        Some(value) => (true, wide_of(value)),
        None => (false, wide_of(0)),
    }
}

/// Whether there is a critical value, and the value.
pub(crate) fn critical_if(value: Option<i64>) -> (bool, i64)
    ensures { ShowsCritical value result.0 result.1 }
{
    match value {
        Some(value) => (true, value),
        None => (false, 0),
    }
}

/// The number of what a test says.
pub(crate) fn verdict_number(verdict: Verdict) -> u8
    ensures { result ≡ verdict_number verdict }
{
    match verdict {
        Verdict::Reject => 0,
        Verdict::Accept => 1,
        Verdict::Undecided => 2,
        Verdict::NoCritical => 3,
        Verdict::NoTest => 4,
    }
}

// The number of the reason to stop.
fn stop_number(stop: Option<Stop>) -> u8
    ensures { result ≡ stop_number stop }
{
    match stop {
        None => 0,
        Some(Stop::Accepted) => 1,
        Some(Stop::Undecided) => 2,
        Some(Stop::NoCritical) => 3,
        Some(Stop::NoTest) => 4,
        Some(Stop::NoSuspect) => 5,
        Some(Stop::Spent) => 6,
    }
}
