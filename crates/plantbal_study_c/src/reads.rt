// What a study says, read by places.
ghost use Rattle.std.specs.Prelude.{◌≡◌, ◌≢◌, ◌⊎◌, None, Some, true, false, slice_get, IfSome, IsSomeAnd};
ghost use Rattle.pb_arrays.specs.Found.{measure_in, nodal_in, price_in_stage, result_in, stage_in};
ghost use Rattle.pb_arrays.specs.ShownStage.{ShowsStage, ShowsStudy, ShowsTaken};
ghost use Rattle.pb_arrays.specs.ShownStream.{ShowsResult, member_in, side_in};
ghost use Rattle.pb_arrays.specs.ShownTests.{ShowsMeasure, ShowsNodal};
ghost use Rattle.plantbal_study_c.specs.Studied.{no_studied};
ghost use Rattle.plantbal_study_c.specs.StudyStatus.{study_bad_handle, study_done, study_not_there};
ghost use Rattle.pb_arrays.specs.Wide.{wide_value};

use crate::handle::StudyHandle;
use crate::status::{BAD_HANDLE, DONE, NOT_THERE};
use pb_arrays::{
    PlantbalMeasureTest, PlantbalMember, PlantbalNodalTest, PlantbalResult, PlantbalStage,
    PlantbalStudied, PlantbalTaken, PlantbalWide, is_inside, measure_at, member_at, nodal_at,
    price_at, result_at, stage_at, studied, taken_at,
};
use std::alloc::Global;
use std::mem::replace;

/// Writes how many stages there are, how many measurements were taken out between them, and why the elimination stopped.
/// `PLANTBAL_BAD_HANDLE`: the handle holds no study; all of `counts` is 0.
#[unsafe(no_mangle)]
pub extern "C" fn plantbal_study_counts(
    alloc: Global,
    study: &mut StudyHandle,
    counts: &mut PlantbalStudied,
) -> u8
    ensures live { study.new.live ≡ study.old.live }
    ensures kept { study.old.live ≡ true → study.new.value ≡ study.old.value }
    ensures handle { result ≡ study_bad_handle → study.old.live ≡ false }
    ensures none { study.old.live ≡ false → result ≡ study_bad_handle }
    ensures counts { result ≡ study_done → ShowsStudy study.old.value counts.new }
    ensures done { study.old.live ≡ true → result ≡ study_done }
    ensures nothing { study.old.live ≡ false → counts.new ≡ no_studied }
    ensures answers { (result ≡ study_done) ⊎ (result ≡ study_bad_handle) }
{
    match replace(study, StudyHandle::none(alloc)).into_box() {
        Some(held) => {
            let shown = studied(held.study());
            *study = StudyHandle::of(held);
            *counts = shown;
            DONE
        }
        None => {
            *counts = PlantbalStudied {
                stages: 0,
                taken: 0,
                stop: 0,
            };
            BAD_HANDLE
        }
    }
}

/// Writes the stage at a place. `PLANTBAL_NOT_THERE`: there is none, and nothing is written. `PLANTBAL_BAD_HANDLE`: the handle holds no study.
#[unsafe(no_mangle)]
pub extern "C" fn plantbal_study_stage(
    alloc: Global,
    study: &mut StudyHandle,
    stage: usize,
    shown_stage: &mut PlantbalStage,
) -> u8
    ensures live { study.new.live ≡ study.old.live }
    ensures kept { study.old.live ≡ true → study.new.value ≡ study.old.value }
    ensures handle { result ≡ study_bad_handle → study.old.live ≡ false }
    ensures none { study.old.live ≡ false → result ≡ study_bad_handle }
    ensures shows { result ≡ study_done
        → IsSomeAnd (stage_in study.old.value stage) (λ found. ShowsStage found shown_stage.new) }
    ensures not_there { result ≡ study_not_there → stage_in study.old.value stage ≡ None }
    ensures there { study.old.live ≡ true → stage_in study.old.value stage ≢ None
        → result ≡ study_done }
    ensures unwritten { result ≢ study_done → shown_stage.new ≡ shown_stage.old }
    ensures answers { (result ≡ study_done) ⊎ (result ≡ study_not_there)
        ⊎ (result ≡ study_bad_handle) }
{
    match replace(study, StudyHandle::none(alloc)).into_box() {
        Some(held) => {
            let shown = stage_at(held.study(), stage);
            *study = StudyHandle::of(held);
            write(shown, shown_stage)
        }
        None => BAD_HANDLE,
    }
}

/// Writes which measurement was taken out after a stage. `PLANTBAL_NOT_THERE`: none was, and nothing is written.
/// `PLANTBAL_BAD_HANDLE`: the handle holds no study.
#[unsafe(no_mangle)]
pub extern "C" fn plantbal_study_taken(
    alloc: Global,
    study: &mut StudyHandle,
    stage: usize,
    taken: &mut PlantbalTaken,
) -> u8
    ensures live { study.new.live ≡ study.old.live }
    ensures kept { study.old.live ≡ true → study.new.value ≡ study.old.value }
    ensures handle { result ≡ study_bad_handle → study.old.live ≡ false }
    ensures none { study.old.live ≡ false → result ≡ study_bad_handle }
    ensures shows { result ≡ study_done
        → IsSomeAnd (slice_get study.old.value.taken stage) (λ found. ShowsTaken found taken.new) }
    ensures not_there { result ≡ study_not_there → slice_get study.old.value.taken stage ≡ None }
    ensures there { study.old.live ≡ true → slice_get study.old.value.taken stage ≢ None
        → result ≡ study_done }
    ensures unwritten { result ≢ study_done → taken.new ≡ taken.old }
    ensures answers { (result ≡ study_done) ⊎ (result ≡ study_not_there)
        ⊎ (result ≡ study_bad_handle) }
{
    match replace(study, StudyHandle::none(alloc)).into_box() {
        Some(held) => {
            let shown = taken_at(held.study(), stage);
            *study = StudyHandle::of(held);
            write(shown, taken)
        }
        None => BAD_HANDLE,
    }
}

/// Writes what a stage says of a stream. `PLANTBAL_NOT_THERE`: there is no such stage or stream, and nothing is written.
/// `PLANTBAL_BAD_HANDLE`: the handle holds no study.
#[unsafe(no_mangle)]
pub extern "C" fn plantbal_study_stream(
    alloc: Global,
    study: &mut StudyHandle,
    stage: usize,
    stream: u32,
    shown_result: &mut PlantbalResult,
) -> u8
    ensures live { study.new.live ≡ study.old.live }
    ensures kept { study.old.live ≡ true → study.new.value ≡ study.old.value }
    ensures handle { result ≡ study_bad_handle → study.old.live ≡ false }
    ensures none { study.old.live ≡ false → result ≡ study_bad_handle }
    ensures shows { result ≡ study_done
        → IsSomeAnd (result_in study.old.value stage stream) (λ found. ShowsResult found shown_result.new) }
    ensures not_there { result ≡ study_not_there → result_in study.old.value stage stream ≡ None }
    ensures there { study.old.live ≡ true → result_in study.old.value stage stream ≢ None
        → result ≡ study_done }
    ensures unwritten { result ≢ study_done → shown_result.new ≡ shown_result.old }
    ensures answers { (result ≡ study_done) ⊎ (result ≡ study_not_there)
        ⊎ (result ≡ study_bad_handle) }
{
    match replace(study, StudyHandle::none(alloc)).into_box() {
        Some(held) => {
            let shown = result_at(held.study(), stage, stream);
            *study = StudyHandle::of(held);
            write(shown, shown_result)
        }
        None => BAD_HANDLE,
    }
}

/// Writes the stream at a place of the certificate of a stream. `PLANTBAL_NOT_THERE`: there is none, and nothing is written.
/// `PLANTBAL_BAD_HANDLE`: the handle holds no study.
#[unsafe(no_mangle)]
pub extern "C" fn plantbal_study_member(
    alloc: Global,
    study: &mut StudyHandle,
    stage: usize,
    stream: u32,
    place: usize,
    member: &mut PlantbalMember,
) -> u8
    ensures live { study.new.live ≡ study.old.live }
    ensures kept { study.old.live ≡ true → study.new.value ≡ study.old.value }
    ensures handle { result ≡ study_bad_handle → study.old.live ≡ false }
    ensures none { study.old.live ≡ false → result ≡ study_bad_handle }
    ensures shows { result ≡ study_done
        → member_in study.old.value stage stream place ≡ Some member.new }
    ensures not_there { result ≡ study_not_there → member_in study.old.value stage stream place ≡ None }
    ensures there { study.old.live ≡ true → member_in study.old.value stage stream place ≢ None
        → result ≡ study_done }
    ensures unwritten { result ≢ study_done → member.new ≡ member.old }
    ensures answers { (result ≡ study_done) ⊎ (result ≡ study_not_there)
        ⊎ (result ≡ study_bad_handle) }
{
    match replace(study, StudyHandle::none(alloc)).into_box() {
        Some(held) => {
            let shown = member_at(held.study(), stage, stream, place);
            *study = StudyHandle::of(held);
            write(shown, member)
        }
        None => BAD_HANDLE,
    }
}

/// Writes whether a node is inside the cut that is the certificate of a stream. `PLANTBAL_NOT_THERE`: the certificate is a cycle, or
/// there is no such stage, stream or node, and nothing is written. `PLANTBAL_BAD_HANDLE`: the handle holds no study.
#[unsafe(no_mangle)]
pub extern "C" fn plantbal_study_inside(
    alloc: Global,
    study: &mut StudyHandle,
    stage: usize,
    stream: u32,
    node: u32,
    inside: &mut bool,
) -> u8
    ensures live { study.new.live ≡ study.old.live }
    ensures kept { study.old.live ≡ true → study.new.value ≡ study.old.value }
    ensures handle { result ≡ study_bad_handle → study.old.live ≡ false }
    ensures none { study.old.live ≡ false → result ≡ study_bad_handle }
    ensures shows { result ≡ study_done
        → side_in study.old.value stage stream node ≡ Some inside.new }
    ensures not_there { result ≡ study_not_there → side_in study.old.value stage stream node ≡ None }
    ensures there { study.old.live ≡ true → side_in study.old.value stage stream node ≢ None
        → result ≡ study_done }
    ensures unwritten { result ≢ study_done → inside.new ≡ inside.old }
    ensures answers { (result ≡ study_done) ⊎ (result ≡ study_not_there)
        ⊎ (result ≡ study_bad_handle) }
{
    match replace(study, StudyHandle::none(alloc)).into_box() {
        Some(held) => {
            let shown = is_inside(held.study(), stage, stream, node);
            *study = StudyHandle::of(held);
            write(shown, inside)
        }
        None => BAD_HANDLE,
    }
}

/// Writes the price of a node in a stage, in units of 2^-56. `PLANTBAL_NOT_THERE`: there is no such stage or node, and nothing is
/// written. `PLANTBAL_BAD_HANDLE`: the handle holds no study.
#[unsafe(no_mangle)]
pub extern "C" fn plantbal_study_price(
    alloc: Global,
    study: &mut StudyHandle,
    stage: usize,
    node: u32,
    price: &mut PlantbalWide,
) -> u8
    ensures live { study.new.live ≡ study.old.live }
    ensures kept { study.old.live ≡ true → study.new.value ≡ study.old.value }
    ensures handle { result ≡ study_bad_handle → study.old.live ≡ false }
    ensures none { study.old.live ≡ false → result ≡ study_bad_handle }
    ensures shows { result ≡ study_done
        → price_in_stage study.old.value stage node ≡ Some (wide_value price.new) }
    ensures not_there { result ≡ study_not_there → price_in_stage study.old.value stage node ≡ None }
    ensures there { study.old.live ≡ true → price_in_stage study.old.value stage node ≢ None
        → result ≡ study_done }
    ensures unwritten { result ≢ study_done → price.new ≡ price.old }
    ensures answers { (result ≡ study_done) ⊎ (result ≡ study_not_there)
        ⊎ (result ≡ study_bad_handle) }
{
    match replace(study, StudyHandle::none(alloc)).into_box() {
        Some(held) => {
            let shown = price_at(held.study(), stage, node);
            *study = StudyHandle::of(held);
            write(shown, price)
        }
        None => BAD_HANDLE,
    }
}

/// Writes the test of a group of nodes at a place of a stage. `PLANTBAL_NOT_THERE`: there is none, and nothing is written.
/// `PLANTBAL_BAD_HANDLE`: the handle holds no study.
#[unsafe(no_mangle)]
pub extern "C" fn plantbal_study_nodal(
    alloc: Global,
    study: &mut StudyHandle,
    stage: usize,
    place: usize,
    test: &mut PlantbalNodalTest,
) -> u8
    ensures live { study.new.live ≡ study.old.live }
    ensures kept { study.old.live ≡ true → study.new.value ≡ study.old.value }
    ensures handle { result ≡ study_bad_handle → study.old.live ≡ false }
    ensures none { study.old.live ≡ false → result ≡ study_bad_handle }
    ensures shows { result ≡ study_done
        → IsSomeAnd (nodal_in study.old.value stage place) (λ found. ShowsNodal found test.new) }
    ensures not_there { result ≡ study_not_there → nodal_in study.old.value stage place ≡ None }
    ensures there { study.old.live ≡ true → nodal_in study.old.value stage place ≢ None
        → result ≡ study_done }
    ensures unwritten { result ≢ study_done → test.new ≡ test.old }
    ensures answers { (result ≡ study_done) ⊎ (result ≡ study_not_there)
        ⊎ (result ≡ study_bad_handle) }
{
    match replace(study, StudyHandle::none(alloc)).into_box() {
        Some(held) => {
            let shown = nodal_at(held.study(), stage, place);
            *study = StudyHandle::of(held);
            write(shown, test)
        }
        None => BAD_HANDLE,
    }
}

/// Writes the test of a measurement at a place of a stage. `PLANTBAL_NOT_THERE`: there is none, and nothing is written.
/// `PLANTBAL_BAD_HANDLE`: the handle holds no study.
#[unsafe(no_mangle)]
pub extern "C" fn plantbal_study_measure(
    alloc: Global,
    study: &mut StudyHandle,
    stage: usize,
    place: usize,
    test: &mut PlantbalMeasureTest,
) -> u8
    ensures live { study.new.live ≡ study.old.live }
    ensures kept { study.old.live ≡ true → study.new.value ≡ study.old.value }
    ensures handle { result ≡ study_bad_handle → study.old.live ≡ false }
    ensures none { study.old.live ≡ false → result ≡ study_bad_handle }
    ensures shows { result ≡ study_done
        → IsSomeAnd (measure_in study.old.value stage place) (λ found. ShowsMeasure found test.new) }
    ensures not_there { result ≡ study_not_there → measure_in study.old.value stage place ≡ None }
    ensures there { study.old.live ≡ true → measure_in study.old.value stage place ≢ None
        → result ≡ study_done }
    ensures unwritten { result ≢ study_done → test.new ≡ test.old }
    ensures answers { (result ≡ study_done) ⊎ (result ≡ study_not_there)
        ⊎ (result ≡ study_bad_handle) }
{
    match replace(study, StudyHandle::none(alloc)).into_box() {
        Some(held) => {
            let shown = measure_at(held.study(), stage, place);
            *study = StudyHandle::of(held);
            write(shown, test)
        }
        None => BAD_HANDLE,
    }
}

// Writes what was found, if something was.
fn write<T: Copy>(found: Option<T>, place: &mut T) -> u8
    ensures found { IfSome found (λ value. (result ≡ study_done) × (place.new ≡ value)) }
    ensures none { found ≡ None → (result ≡ study_not_there) × (place.new ≡ place.old) }
{
    match found {
        Some(value) => {
            *place = value;
            DONE
        }
        None => NOT_THERE,
    }
}
