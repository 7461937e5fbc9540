// The tests of a stage.
ghost use Rattle.std.specs.Prelude.{◌≡◌, None, IfSome, IsSomeAnd};
ghost use Rattle.std.specs.Option.{option_map};
ghost use Rattle.pb_arrays.specs.Found.{measure_in, nodal_in, tests_in};
ghost use Rattle.pb_arrays.specs.ShownTests.{ShowsMeasure, ShowsNodal};

use crate::numbers::{PlantbalWide, wide_of};
use crate::stages::{critical_if, verdict_number, wide_if};
use pb_study::{MeasureTest, NodalTest, Study, Tests};

/// The test of the balance of a group of nodes.
#[repr(C)]
#[derive(Clone, Copy)]
pub struct PlantbalNodalTest {
    /// The place of the least node of the group.
    pub node: u32,
    /// Whether there is a critical value.
    pub has_critical: bool,
    /// 0 reject, 1 accept, 2 undecided, 3 no critical value, 4 nothing to test.
    pub verdict: u8,
    /// The critical value in thousandths.
    pub critical: i64,
    /// The net flow in grams.
    pub net: PlantbalWide,
    /// Its variance in squared grams.
    pub variance: PlantbalWide,
}

/// The test of one measurement: how far the least weighted squares fall without it.
#[repr(C)]
#[derive(Clone, Copy)]
pub struct PlantbalMeasureTest {
    /// The place of the stream.
    pub stream: u32,
    /// Whether the fall has a high end.
    pub has_high: bool,
    /// Whether there is a critical value.
    pub has_critical: bool,
    /// 0 reject, 1 accept, 2 undecided, 3 no critical value, 4 nothing to test.
    pub verdict: u8,
    /// The critical value in thousandths.
    pub critical: i64,
    /// The fall is at least this much, in thousandths.
    pub low: PlantbalWide,
    /// It is at most this much.
    pub high: PlantbalWide,
}

// The tests of a stage, if it has any.
fn tests_of(study: &Study, stage: usize) -> Option<&Tests>
    ensures { option_map (λ tests. tests.now) result ≡ tests_in study.now stage }
{
    match study.stages.as_slice().get(stage) {
        Some(stage) => stage.tests.as_ref(),
        None => None,
    }
}

/// The test of a group of nodes at a place in a stage; `None` iff there is none.
pub fn nodal_at(study: &Study, stage: usize, place: usize) -> Option<PlantbalNodalTest>
    ensures value { IfSome result (λ shown.
        IsSomeAnd (nodal_in study.now stage place) (λ test. ShowsNodal test shown)) }
    ensures none { result ≡ None → nodal_in study.now stage place ≡ None }
{
    match tests_of(study, stage) {
        Some(tests) => match tests.nodal.as_slice().get(place) {
            Some(test) => Some(shown_nodal(test)),
            None => None,
        },
        None => None,
    }
}

/// The test of a measurement at a place in a stage; `None` iff there is none.
pub fn measure_at(study: &Study, stage: usize, place: usize) -> Option<PlantbalMeasureTest>
    ensures value { IfSome result (λ shown.
        IsSomeAnd (measure_in study.now stage place) (λ test. ShowsMeasure test shown)) }
    ensures none { result ≡ None → measure_in study.now stage place ≡ None }
{
    match tests_of(study, stage) {
        Some(tests) => match tests.measure.as_slice().get(place) {
            Some(test) => Some(shown_measure(test)),
            None => None,
        },
        None => None,
    }
}

// The test of a group of nodes as C has it.
fn shown_nodal(test: &NodalTest) -> PlantbalNodalTest
    ensures { ShowsNodal test.now result }
{
    let (has_critical, critical) = critical_if(test.critical);
    PlantbalNodalTest {
        node: test.node,
        has_critical,
        verdict: verdict_number(test.verdict),
        critical,
        net: wide_of(test.net),
        variance: wide_of(test.variance),
    }
}

// The test of a measurement as C has it.
fn shown_measure(test: &MeasureTest) -> PlantbalMeasureTest
    ensures { ShowsMeasure test.now result }
{
    let (has_high, high) = wide_if(test.high);
    let (has_critical, critical) = critical_if(test.critical);
    PlantbalMeasureTest {
        stream: test.stream,
        has_high,
        has_critical,
        verdict: verdict_number(test.verdict),
        critical,
        low: wide_of(test.low),
        high,
    }
}
