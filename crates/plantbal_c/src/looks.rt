// What a session's book says, by places and by names.
ghost use Rattle.std.specs.Prelude.{◌≡◌, ◌≢◌, ◌≤◌, ◌<◌, ◌⊎◌, None, Some, true, false, length, position, slice_get, IfSome, IsSomeAnd};
ghost use Rattle.pb_rows.specs.Name.{is_name, same_name};
ghost use Rattle.pb_site.specs.Site.{arc_names, arcs_of, node_names, node_of, version_of};
ghost use Rattle.pb_facts.specs.Facts.{live_place_of};
ghost use Rattle.pb_periods.specs.Touching.{touches_in};
ghost use Rattle.pb_book.specs.Edits.{edits_of, touches_at};
ghost use Rattle.pb_book.specs.Rows.{declared_of, facts_of, period_place, periods_of};
ghost use Rattle.pb_shown.specs.Counts.{IsCountOf};
ghost use Rattle.pb_shown.specs.Edits.{ShowsEdit};
ghost use Rattle.pb_shown.specs.Facts.{ShowsKept};
ghost use Rattle.pb_shown.specs.Periods.{ShowsPeriod};
ghost use Rattle.pb_shown.specs.Plant.{ShowsNode, ShowsStream};
ghost use Rattle.plantbal_c.specs.Counts.{no_counts};
ghost use Rattle.plantbal_c.specs.Status.{bad_handle, done, not_there};

use crate::handle::SessionHandle;
use crate::status::{BAD_HANDLE, DONE, NOT_THERE};
use pb_shown::{
    PlantbalCounts, PlantbalEdit, PlantbalFact, PlantbalNode, PlantbalPeriod, PlantbalStream,
    counts_of, edit_at, edit_touches, fact_at, fact_named, fact_touches, node_at, node_named,
    period_at, period_named, stream_at, stream_named,
};
use std::alloc::Global;
use std::mem::replace;

/// Writes how much there is of everything in the book. `PLANTBAL_BAD_HANDLE`: the handle holds no session; all of `counts` is 0.
#[unsafe(no_mangle)]
pub extern "C" fn plantbal_session_counts(
    alloc: Global,
    session: &mut SessionHandle,
    counts: &mut PlantbalCounts,
) -> u8
    ensures live { session.new.live ≡ session.old.live }
    ensures kept { session.old.live ≡ true → session.new.value ≡ session.old.value }
    ensures handle { result ≡ bad_handle → session.old.live ≡ false }
    ensures none { session.old.live ≡ false → result ≡ bad_handle }
    ensures counts { result ≡ done → IsCountOf session.old.value.state.rows counts.new }
    ensures done { session.old.live ≡ true → result ≡ done }
    ensures nothing { session.old.live ≡ false → counts.new ≡ no_counts }
    ensures answers { (result ≡ done) ⊎ (result ≡ bad_handle) }
{
    match replace(session, SessionHandle::none(alloc)).into_box() {
        Some(held) => {
            let shown = counts_of(held.book());
            *session = SessionHandle::of(held);
            *counts = shown;
            DONE
        }
        None => {
            *counts = PlantbalCounts {
                version: 0,
                nodes: 0,
                streams: 0,
                periods: 0,
                facts: 0,
                assays: 0,
                edits: 0,
            };
            BAD_HANDLE
        }
    }
}

/// Writes the node at a place, counted from 0, which is the environment. `PLANTBAL_NOT_THERE`: there are no more than `place`
/// nodes, and nothing is written. `PLANTBAL_BAD_HANDLE`: the handle holds no session.
#[unsafe(no_mangle)]
pub extern "C" fn plantbal_session_node(
    alloc: Global,
    session: &mut SessionHandle,
    place: u32,
    node: &mut PlantbalNode,
) -> u8
    ensures live { session.new.live ≡ session.old.live }
    ensures kept { session.old.live ≡ true → session.new.value ≡ session.old.value }
    ensures handle { result ≡ bad_handle → session.old.live ≡ false }
    ensures none { session.old.live ≡ false → result ≡ bad_handle }
    ensures shows { result ≡ done → IsSomeAnd
        (slice_get (node_names (declared_of session.old.value.state.rows)) place)
        (λ name. ShowsNode (declared_of session.old.value.state.rows) name node.new) }
    ensures not_there { result ≡ not_there
        → length (node_names (declared_of session.old.value.state.rows)) ≤ place }
    ensures there { session.old.live ≡ true
        → place < length (node_names (declared_of session.old.value.state.rows))
        → result ≡ done }
    ensures unwritten { result ≢ done → node.new ≡ node.old }
    ensures answers { (result ≡ done) ⊎ (result ≡ not_there) ⊎ (result ≡ bad_handle) }
{
    match replace(session, SessionHandle::none(alloc)).into_box() {
        Some(held) => {
            let shown = node_at(held.book(), place);
            *session = SessionHandle::of(held);
            write(shown, node)
        }
        None => BAD_HANDLE,
    }
}

/// Writes the stream at a place, counted from 0 in the order of declaration. `PLANTBAL_NOT_THERE`: there are no more than `place`
/// streams, and nothing is written. `PLANTBAL_BAD_HANDLE`: the handle holds no session.
#[unsafe(no_mangle)]
pub extern "C" fn plantbal_session_stream(
    alloc: Global,
    session: &mut SessionHandle,
    place: u32,
    stream: &mut PlantbalStream,
) -> u8
    ensures live { session.new.live ≡ session.old.live }
    ensures kept { session.old.live ≡ true → session.new.value ≡ session.old.value }
    ensures handle { result ≡ bad_handle → session.old.live ≡ false }
    ensures none { session.old.live ≡ false → result ≡ bad_handle }
    ensures shows { result ≡ done → IsSomeAnd
        (slice_get (arcs_of (declared_of session.old.value.state.rows)) place)
        (λ arc. ShowsStream arc stream.new) }
    ensures not_there { result ≡ not_there
        → length (arcs_of (declared_of session.old.value.state.rows)) ≤ place }
    ensures there { session.old.live ≡ true
        → place < length (arcs_of (declared_of session.old.value.state.rows))
        → result ≡ done }
    ensures unwritten { result ≢ done → stream.new ≡ stream.old }
    ensures answers { (result ≡ done) ⊎ (result ≡ not_there) ⊎ (result ≡ bad_handle) }
{
    match replace(session, SessionHandle::none(alloc)).into_box() {
        Some(held) => {
            let shown = stream_at(held.book(), place);
            *session = SessionHandle::of(held);
            write(shown, stream)
        }
        None => BAD_HANDLE,
    }
}

/// Writes the period at a place, counted from 0 in the order of declaration. `PLANTBAL_NOT_THERE`: there are no more than `place`
/// periods, and nothing is written. `PLANTBAL_BAD_HANDLE`: the handle holds no session.
#[unsafe(no_mangle)]
pub extern "C" fn plantbal_session_period(
    alloc: Global,
    session: &mut SessionHandle,
    place: u32,
    period: &mut PlantbalPeriod,
) -> u8
    ensures live { session.new.live ≡ session.old.live }
    ensures kept { session.old.live ≡ true → session.new.value ≡ session.old.value }
    ensures handle { result ≡ bad_handle → session.old.live ≡ false }
    ensures none { session.old.live ≡ false → result ≡ bad_handle }
    ensures shows { result ≡ done → IsSomeAnd
        (slice_get (periods_of session.old.value.state.rows) place)
        (λ days. ShowsPeriod days period.new) }
    ensures not_there { result ≡ not_there
        → length (periods_of session.old.value.state.rows) ≤ place }
    ensures there { session.old.live ≡ true
        → place < length (periods_of session.old.value.state.rows)
        → result ≡ done }
    ensures unwritten { result ≢ done → period.new ≡ period.old }
    ensures answers { (result ≡ done) ⊎ (result ≡ not_there) ⊎ (result ≡ bad_handle) }
{
    match replace(session, SessionHandle::none(alloc)).into_box() {
        Some(held) => {
            let shown = period_at(held.book(), place);
            *session = SessionHandle::of(held);
            write(shown, period)
        }
        None => BAD_HANDLE,
    }
}

/// Writes the fact at a place, counted from 0 in the order of booking, with its last values. `PLANTBAL_NOT_THERE`: there are no
/// more than `place` facts, and nothing is written. `PLANTBAL_BAD_HANDLE`: the handle holds no session.
#[unsafe(no_mangle)]
pub extern "C" fn plantbal_session_fact(
    alloc: Global,
    session: &mut SessionHandle,
    place: u32,
    fact: &mut PlantbalFact,
) -> u8
    ensures live { session.new.live ≡ session.old.live }
    ensures kept { session.old.live ≡ true → session.new.value ≡ session.old.value }
    ensures handle { result ≡ bad_handle → session.old.live ≡ false }
    ensures none { session.old.live ≡ false → result ≡ bad_handle }
    ensures shows { result ≡ done → IsSomeAnd
        (slice_get (facts_of session.old.value.state.rows) place)
        (λ kept. ShowsKept kept fact.new) }
    ensures not_there { result ≡ not_there
        → length (facts_of session.old.value.state.rows) ≤ place }
    ensures there { session.old.live ≡ true
        → place < length (facts_of session.old.value.state.rows)
        → result ≡ done }
    ensures unwritten { result ≢ done → fact.new ≡ fact.old }
    ensures answers { (result ≡ done) ⊎ (result ≡ not_there) ⊎ (result ≡ bad_handle) }
{
    match replace(session, SessionHandle::none(alloc)).into_box() {
        Some(held) => {
            let shown = fact_at(held.book(), place);
            *session = SessionHandle::of(held);
            write(shown, fact)
        }
        None => BAD_HANDLE,
    }
}

/// Writes the edit at a place, counted from 0 in the order of the records. `PLANTBAL_NOT_THERE`: there are no more than `place`
/// edits, and nothing is written. `PLANTBAL_BAD_HANDLE`: the handle holds no session.
#[unsafe(no_mangle)]
pub extern "C" fn plantbal_session_edit(
    alloc: Global,
    session: &mut SessionHandle,
    place: u64,
    edit: &mut PlantbalEdit,
) -> u8
    ensures live { session.new.live ≡ session.old.live }
    ensures kept { session.old.live ≡ true → session.new.value ≡ session.old.value }
    ensures handle { result ≡ bad_handle → session.old.live ≡ false }
    ensures none { session.old.live ≡ false → result ≡ bad_handle }
    ensures shows { result ≡ done → IsSomeAnd
        (slice_get (edits_of session.old.value.state.rows) place)
        (λ row. ShowsEdit row edit.new) }
    ensures not_there { result ≡ not_there
        → length (edits_of session.old.value.state.rows) ≤ place }
    ensures there { session.old.live ≡ true
        → place < length (edits_of session.old.value.state.rows)
        → result ≡ done }
    ensures unwritten { result ≢ done → edit.new ≡ edit.old }
    ensures answers { (result ≡ done) ⊎ (result ≡ not_there) ⊎ (result ≡ bad_handle) }
{
    match replace(session, SessionHandle::none(alloc)).into_box() {
        Some(held) => {
            let shown = edit_at(held.book(), place);
            *session = SessionHandle::of(held);
            write(shown, edit)
        }
        None => BAD_HANDLE,
    }
}

/// Writes whether the fact at one place touches the period at another: whether it counts there. `PLANTBAL_NOT_THERE`: there is no
/// such fact or period, and nothing is written. `PLANTBAL_BAD_HANDLE`: the handle holds no session.
#[unsafe(no_mangle)]
pub extern "C" fn plantbal_session_fact_touches(
    alloc: Global,
    session: &mut SessionHandle,
    fact: u32,
    period: u32,
    touches: &mut bool,
) -> u8
    ensures live { session.new.live ≡ session.old.live }
    ensures kept { session.old.live ≡ true → session.new.value ≡ session.old.value }
    ensures handle { result ≡ bad_handle → session.old.live ≡ false }
    ensures none { session.old.live ≡ false → result ≡ bad_handle }
    ensures touches { result ≡ done → IsSomeAnd
        (slice_get (facts_of session.old.value.state.rows) fact)
        (λ kept. IsSomeAnd (slice_get (periods_of session.old.value.state.rows) period)
        (λ days. touches.new ≡ touches_in (version_of (declared_of session.old.value.state.rows))
        (declared_of session.old.value.state.rows) kept.fact days)) }
    ensures not_there { result ≡ not_there
        → (length (facts_of session.old.value.state.rows) ≤ fact)
        ⊎ (length (periods_of session.old.value.state.rows) ≤ period) }
    ensures there { session.old.live ≡ true
        → fact < length (facts_of session.old.value.state.rows)
        → period < length (periods_of session.old.value.state.rows) → result ≡ done }
    ensures unwritten { result ≢ done → touches.new ≡ touches.old }
    ensures answers { (result ≡ done) ⊎ (result ≡ not_there) ⊎ (result ≡ bad_handle) }
{
    match replace(session, SessionHandle::none(alloc)).into_box() {
        Some(held) => {
            let shown = fact_touches(held.book(), fact, period);
            *session = SessionHandle::of(held);
            write(shown, touches)
        }
        None => BAD_HANDLE,
    }
}

/// Writes whether the edit at one place touches the period at another: whether it counts there. `PLANTBAL_NOT_THERE`: there is no
/// such edit or period, and nothing is written. `PLANTBAL_BAD_HANDLE`: the handle holds no session.
#[unsafe(no_mangle)]
pub extern "C" fn plantbal_session_edit_touches(
    alloc: Global,
    session: &mut SessionHandle,
    edit: u64,
    period: u32,
    touches: &mut bool,
) -> u8
    ensures live { session.new.live ≡ session.old.live }
    ensures kept { session.old.live ≡ true → session.new.value ≡ session.old.value }
    ensures handle { result ≡ bad_handle → session.old.live ≡ false }
    ensures none { session.old.live ≡ false → result ≡ bad_handle }
    ensures touches { result ≡ done → touches.new
        ≡ touches_at session.old.value.state.rows edit period }
    ensures not_there { result ≡ not_there
        → (length (edits_of session.old.value.state.rows) ≤ edit)
        ⊎ (length (periods_of session.old.value.state.rows) ≤ period) }
    ensures there { session.old.live ≡ true
        → edit < length (edits_of session.old.value.state.rows)
        → period < length (periods_of session.old.value.state.rows) → result ≡ done }
    ensures unwritten { result ≢ done → touches.new ≡ touches.old }
    ensures answers { (result ≡ done) ⊎ (result ≡ not_there) ⊎ (result ≡ bad_handle) }
{
    match replace(session, SessionHandle::none(alloc)).into_box() {
        Some(held) => {
            let shown = edit_touches(held.book(), edit, period);
            *session = SessionHandle::of(held);
            write(shown, touches)
        }
        None => BAD_HANDLE,
    }
}

/// Writes the place of the node of a name, 0 for the environment and for a boundary. `PLANTBAL_NOT_THERE`: there is none, or the
/// bytes aren't a name, and nothing is written. `PLANTBAL_BAD_HANDLE`: the handle holds no session.
#[unsafe(no_mangle)]
pub extern "C" fn plantbal_session_node_named(
    alloc: Global,
    session: &mut SessionHandle,
    name: &[u8],
    place: &mut u32,
) -> u8
    ensures live { session.new.live ≡ session.old.live }
    ensures kept { session.old.live ≡ true → session.new.value ≡ session.old.value }
    ensures handle { result ≡ bad_handle → session.old.live ≡ false }
    ensures none { session.old.live ≡ false → result ≡ bad_handle }
    ensures found { result ≡ done
        → node_of (declared_of session.old.value.state.rows) name.now ≡ Some place.new }
    ensures not_there { result ≡ not_there → is_name name.now ≡ true
        → node_of (declared_of session.old.value.state.rows) name.now ≡ None }
    ensures there { session.old.live ≡ true
        → is_name name.now ≡ true
        → node_of (declared_of session.old.value.state.rows) name.now ≢ None → result ≡ done }
    ensures unwritten { result ≢ done → place.new ≡ place.old }
    ensures answers { (result ≡ done) ⊎ (result ≡ not_there) ⊎ (result ≡ bad_handle) }
{
    match replace(session, SessionHandle::none(alloc)).into_box() {
        Some(held) => {
            let shown = node_named(held.book(), name);
            *session = SessionHandle::of(held);
            write(shown, place)
        }
        None => BAD_HANDLE,
    }
}

/// Writes the place of the stream or the tank of a name. `PLANTBAL_NOT_THERE`: there is none, or the bytes aren't a name, and
/// nothing is written. `PLANTBAL_BAD_HANDLE`: the handle holds no session.
#[unsafe(no_mangle)]
pub extern "C" fn plantbal_session_stream_named(
    alloc: Global,
    session: &mut SessionHandle,
    name: &[u8],
    place: &mut u32,
) -> u8
    ensures live { session.new.live ≡ session.old.live }
    ensures kept { session.old.live ≡ true → session.new.value ≡ session.old.value }
    ensures handle { result ≡ bad_handle → session.old.live ≡ false }
    ensures none { session.old.live ≡ false → result ≡ bad_handle }
    ensures found { result ≡ done
        → position (same_name name.now)
        (arc_names (declared_of session.old.value.state.rows)) ≡ Some place.new }
    ensures not_there { result ≡ not_there → is_name name.now ≡ true
        → position (same_name name.now)
        (arc_names (declared_of session.old.value.state.rows)) ≡ None }
    ensures there { session.old.live ≡ true
        → is_name name.now ≡ true
        → position (same_name name.now)
        (arc_names (declared_of session.old.value.state.rows)) ≢ None → result ≡ done }
    ensures unwritten { result ≢ done → place.new ≡ place.old }
    ensures answers { (result ≡ done) ⊎ (result ≡ not_there) ⊎ (result ≡ bad_handle) }
{
    match replace(session, SessionHandle::none(alloc)).into_box() {
        Some(held) => {
            let shown = stream_named(held.book(), name);
            *session = SessionHandle::of(held);
            write(shown, place)
        }
        None => BAD_HANDLE,
    }
}

/// Writes the place of the period of a name. `PLANTBAL_NOT_THERE`: there is none, or the bytes aren't a name, and nothing is
/// written. `PLANTBAL_BAD_HANDLE`: the handle holds no session.
#[unsafe(no_mangle)]
pub extern "C" fn plantbal_session_period_named(
    alloc: Global,
    session: &mut SessionHandle,
    name: &[u8],
    place: &mut u32,
) -> u8
    ensures live { session.new.live ≡ session.old.live }
    ensures kept { session.old.live ≡ true → session.new.value ≡ session.old.value }
    ensures handle { result ≡ bad_handle → session.old.live ≡ false }
    ensures none { session.old.live ≡ false → result ≡ bad_handle }
    ensures found { result ≡ done
        → period_place session.old.value.state.rows name.now ≡ Some place.new }
    ensures not_there { result ≡ not_there → is_name name.now ≡ true
        → period_place session.old.value.state.rows name.now ≡ None }
    ensures there { session.old.live ≡ true
        → is_name name.now ≡ true
        → period_place session.old.value.state.rows name.now ≢ None → result ≡ done }
    ensures unwritten { result ≢ done → place.new ≡ place.old }
    ensures answers { (result ≡ done) ⊎ (result ≡ not_there) ⊎ (result ≡ bad_handle) }
{
    match replace(session, SessionHandle::none(alloc)).into_box() {
        Some(held) => {
            let shown = period_named(held.book(), name);
            *session = SessionHandle::of(held);
            write(shown, place)
        }
        None => BAD_HANDLE,
    }
}

/// Writes the place of the live fact that has this id. `PLANTBAL_NOT_THERE`: there is none, or the bytes aren't a name, and nothing
/// is written. `PLANTBAL_BAD_HANDLE`: the handle holds no session.
#[unsafe(no_mangle)]
pub extern "C" fn plantbal_session_fact_named(
    alloc: Global,
    session: &mut SessionHandle,
    name: &[u8],
    place: &mut u32,
) -> u8
    ensures live { session.new.live ≡ session.old.live }
    ensures kept { session.old.live ≡ true → session.new.value ≡ session.old.value }
    ensures handle { result ≡ bad_handle → session.old.live ≡ false }
    ensures none { session.old.live ≡ false → result ≡ bad_handle }
    ensures found { result ≡ done
        → live_place_of name.now (facts_of session.old.value.state.rows) ≡ Some place.new }
    ensures not_there { result ≡ not_there → is_name name.now ≡ true
        → live_place_of name.now (facts_of session.old.value.state.rows) ≡ None }
    ensures there { session.old.live ≡ true
        → is_name name.now ≡ true
        → live_place_of name.now (facts_of session.old.value.state.rows) ≢ None → result ≡ done }
    ensures unwritten { result ≢ done → place.new ≡ place.old }
    ensures answers { (result ≡ done) ⊎ (result ≡ not_there) ⊎ (result ≡ bad_handle) }
{
    match replace(session, SessionHandle::none(alloc)).into_box() {
        Some(held) => {
            let shown = fact_named(held.book(), name);
            *session = SessionHandle::of(held);
            write(shown, place)
        }
        None => BAD_HANDLE,
    }
}

// Writes what was found, if something was.
fn write<T: Copy>(found: Option<T>, place: &mut T) -> u8
    ensures found { IfSome found (λ value. (result ≡ done) × (place.new ≡ value)) }
    ensures none { found ≡ None → (result ≡ not_there) × (place.new ≡ place.old) }
{
    match found {
        Some(value) => {
            *place = value;
            DONE
        }
        None => NOT_THERE,
    }
}
