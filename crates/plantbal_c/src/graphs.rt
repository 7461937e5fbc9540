// The graph of a period with its names, and the classes of the plant.
ghost use Rattle.std.specs.Prelude.{◌≡◌, ◌≢◌, ◌≤◌, ◌<◌, ◌⊎◌, Err, Ok, true, false, length, take, slice_get, IfOk, IsOkAnd, IsSomeAnd};
ghost use Rattle.pb_arrays.specs.Given.{given_graph};
ghost use Rattle.pb_book.specs.Rows.{periods_of};
ghost use Rattle.pb_period.specs.Days.{days_of};
ghost use Rattle.pb_period.specs.PeriodGraph.{assembly_of, design_graph, period_names};
ghost use Rattle.pb_period.specs.declared.graph.Assembly.TheVariants.{Over};
ghost use Rattle.plantbal_c.specs.Graphs.{AreClasses, CountsNames, IsSizeOf, ShowsNames, no_size};
ghost use Rattle.plantbal_c.specs.Status.{bad_handle, bad_stream, done, no_memory, not_there, small_buffer};

use crate::handle::SessionHandle;
use crate::status::{BAD_HANDLE, BAD_STREAM, DONE, NO_MEMORY, NOT_THERE, SMALL_BUFFER};
use pb_arrays::{PlantbalMeasuredStream, write_classes, write_streams};
use pb_book::Book;
use pb_classify::classify;
use pb_period::{Assembly, assemble, design, names};
use pb_shown::{PlantbalName, write_names};
use std::alloc::{AllocError, Global};
use std::mem::replace;

/// How large a graph is.
#[repr(C)]
#[derive(Clone, Copy)]
pub struct PlantbalGraphSize {
    /// How many nodes there are, the environment among them.
    pub nodes: u32,
    /// The place of the first stream whose value is above 10^15 grams either way, or whose variance is above 10^22 squared grams.
    pub over: u32,
    /// How many streams there are.
    pub streams: usize,
}

/// Writes the graph of the period at a place, from the facts that are live, as a report studies it: its streams in order, with what was
/// measured, and to `size` how many nodes and streams there are. `PLANTBAL_SMALL_BUFFER`: there is no room for the streams; `size` says
/// how many there are. `PLANTBAL_BAD_STREAM`: what is measured of the stream at the place `over` is above the limits, so there is no
/// graph. `PLANTBAL_NOT_THERE`: there are no more than `period` periods. `PLANTBAL_BAD_HANDLE`: the handle holds no session; all of
/// `size` is 0.
#[unsafe(no_mangle)]
pub extern "C" fn plantbal_session_period_graph(
    alloc: Global,
    session: &mut SessionHandle,
    period: u32,
    streams: &mut [PlantbalMeasuredStream],
    size: &mut PlantbalGraphSize,
) -> u8
    ensures live { session.new.live ≡ session.old.live }
    ensures kept { session.old.live ≡ true → session.new.value ≡ session.old.value }
    ensures handle { result ≡ bad_handle → session.old.live ≡ false }
    ensures none { session.old.live ≡ false → result ≡ bad_handle }
    ensures graph { result ≡ done → IsSomeAnd
        (slice_get (periods_of session.old.value.state.rows) period)
        (λ days. assembly_of session.old.value.state.rows (days_of days)
        ≡ Ok (given_graph size.new.nodes (take size.new.streams streams.new))) }
    ensures over { result ≡ bad_stream → IsSomeAnd
        (slice_get (periods_of session.old.value.state.rows) period)
        (λ days. assembly_of session.old.value.state.rows (days_of days)
        ≡ Err (Over size.new.over)) }
    ensures small { result ≡ small_buffer → length streams.old < size.new.streams }
    ensures size { (result ≡ done) ⊎ (result ≡ small_buffer) → IsSomeAnd
        (slice_get (periods_of session.old.value.state.rows) period)
        (λ days. IsOkAnd (assembly_of session.old.value.state.rows (days_of days))
        (λ graph. IsSizeOf graph size.new)) }
    ensures nothing { session.old.live ≡ false → size.new ≡ no_size }
    ensures not_there { result ≡ not_there
        → length (periods_of session.old.value.state.rows) ≤ period }
    ensures answers { (result ≡ done) ⊎ (result ≡ bad_stream) ⊎ (result ≡ small_buffer)
        ⊎ (result ≡ not_there) ⊎ (result ≡ no_memory) ⊎ (result ≡ bad_handle) }
{
    match replace(session, SessionHandle::none(alloc)).into_box() {
        Some(held) => {
            let status = write_graph(alloc, held.book(), period, streams, size);
            *session = SessionHandle::of(held);
            status
        }
        None => {
            *size = PlantbalGraphSize {
                nodes: 0,
                over: 0,
                streams: 0,
            };
            BAD_HANDLE
        }
    }
}

// Writes the graph of a period, if there is one.
fn write_graph(
    alloc: Global,
    book: &Book,
    period: u32,
    streams: &mut [PlantbalMeasuredStream],
    size: &mut PlantbalGraphSize,
) -> u8
    ensures graph { result ≡ done → IsSomeAnd (slice_get (periods_of book.now) period)
        (λ days. assembly_of book.now (days_of days)
        ≡ Ok (given_graph size.new.nodes (take size.new.streams streams.new))) }
    ensures over { result ≡ bad_stream → IsSomeAnd (slice_get (periods_of book.now) period)
        (λ days. assembly_of book.now (days_of days) ≡ Err (Over size.new.over)) }
    ensures small { result ≡ small_buffer → length streams.old < size.new.streams }
    ensures size { (result ≡ done) ⊎ (result ≡ small_buffer)
        → IsSomeAnd (slice_get (periods_of book.now) period)
        (λ days. IsOkAnd (assembly_of book.now (days_of days))
        (λ graph. IsSizeOf graph size.new)) }
    ensures not_there { result ≡ not_there → length (periods_of book.now) ≤ period }
    ensures answers { (result ≡ done) ⊎ (result ≡ bad_stream) ⊎ (result ≡ small_buffer)
        ⊎ (result ≡ not_there) ⊎ (result ≡ no_memory) }
{
    if book.periods() <= period {
        return NOT_THERE;
    }
    match assemble(alloc, book, period) {
        Ok(graph) => {
            size.nodes = graph.nodes();
            size.streams = write_streams(&graph, streams);
            if size.streams > streams.len() {
                SMALL_BUFFER
            } else {
                DONE
            }
        }
        Err(Assembly::Over(place)) => {
            size.over = place;
            BAD_STREAM
        }
        Err(Assembly::NoMemory) => NO_MEMORY,
    }
}

/// Writes the names of the nodes and of the streams of the graph of the period at a place, in the order of the graph, and how many
/// there are. `PLANTBAL_SMALL_BUFFER`: there is no room for all of them. `PLANTBAL_NOT_THERE`: there are no more than `period` periods.
/// `PLANTBAL_BAD_HANDLE`: the handle holds no session; both counts are 0.
#[unsafe(no_mangle)]
pub extern "C" fn plantbal_session_period_names(
    alloc: Global,
    session: &mut SessionHandle,
    period: u32,
    nodes: &mut [PlantbalName],
    streams: &mut [PlantbalName],
    node_count: &mut usize,
    stream_count: &mut usize,
) -> u8
    ensures live { session.new.live ≡ session.old.live }
    ensures kept { session.old.live ≡ true → session.new.value ≡ session.old.value }
    ensures handle { result ≡ bad_handle → session.old.live ≡ false }
    ensures none { session.old.live ≡ false → result ≡ bad_handle }
    ensures names { result ≡ done → IsSomeAnd
        (slice_get (periods_of session.old.value.state.rows) period)
        (λ days. ShowsNames (period_names session.old.value.state.rows (days_of days))
        (take node_count.new nodes.new) (take stream_count.new streams.new)) }
    ensures counts { (result ≡ done) ⊎ (result ≡ small_buffer) → IsSomeAnd
        (slice_get (periods_of session.old.value.state.rows) period)
        (λ days. CountsNames (period_names session.old.value.state.rows (days_of days))
        node_count.new stream_count.new) }
    ensures small { result ≡ small_buffer → (length nodes.old < node_count.new)
        ⊎ (length streams.old < stream_count.new) }
    ensures no_node { session.old.live ≡ false → node_count.new ≡ 0 }
    ensures no_stream { session.old.live ≡ false → stream_count.new ≡ 0 }
    ensures not_there { result ≡ not_there
        → length (periods_of session.old.value.state.rows) ≤ period }
    ensures answers { (result ≡ done) ⊎ (result ≡ small_buffer) ⊎ (result ≡ not_there)
        ⊎ (result ≡ no_memory) ⊎ (result ≡ bad_handle) }
{
    match replace(session, SessionHandle::none(alloc)).into_box() {
        Some(held) => {
            let status = write_both(
                alloc,
                held.book(),
                period,
                nodes,
                streams,
                node_count,
                stream_count,
            );
            *session = SessionHandle::of(held);
            status
        }
        None => {
            *node_count = 0;
            *stream_count = 0;
            BAD_HANDLE
        }
    }
}

// Writes the names of the graph of a period.
fn write_both(
    alloc: Global,
    book: &Book,
    period: u32,
    nodes: &mut [PlantbalName],
    streams: &mut [PlantbalName],
    node_count: &mut usize,
    stream_count: &mut usize,
) -> u8
    ensures names { result ≡ done → IsSomeAnd (slice_get (periods_of book.now) period)
        (λ days. ShowsNames (period_names book.now (days_of days))
        (take node_count.new nodes.new) (take stream_count.new streams.new)) }
    ensures counts { (result ≡ done) ⊎ (result ≡ small_buffer)
        → IsSomeAnd (slice_get (periods_of book.now) period)
        (λ days. CountsNames (period_names book.now (days_of days))
        node_count.new stream_count.new) }
    ensures small { result ≡ small_buffer → (length nodes.old < node_count.new)
        ⊎ (length streams.old < stream_count.new) }
    ensures not_there { result ≡ not_there → length (periods_of book.now) ≤ period }
    ensures answers { (result ≡ done) ⊎ (result ≡ small_buffer) ⊎ (result ≡ not_there)
        ⊎ (result ≡ no_memory) }
{
    if book.periods() <= period {
        return NOT_THERE;
    }
    match names(alloc, book, period) {
        Ok(names) => {
            *node_count = write_names(&names.nodes, nodes);
            *stream_count = write_names(&names.streams, streams);
            if *node_count > nodes.len() || *stream_count > streams.len() {
                SMALL_BUFFER
            } else {
                DONE
            }
        }
        Err(AllocError) => NO_MEMORY,
    }
}

/// Writes the class of each stream of the plant in the order of declaration, before any reading, as the rows of a design say it:
/// 0 observable, 1 unobservable, 2 redundant, 3 nonredundant; and to `count` how many there are. `PLANTBAL_SMALL_BUFFER`: there is no
/// room for all of them. `PLANTBAL_BAD_HANDLE`: the handle holds no session; `count` is 0.
#[unsafe(no_mangle)]
pub extern "C" fn plantbal_session_classes(
    alloc: Global,
    session: &mut SessionHandle,
    classes: &mut [u8],
    count: &mut usize,
) -> u8
    ensures live { session.new.live ≡ session.old.live }
    ensures kept { session.old.live ≡ true → session.new.value ≡ session.old.value }
    ensures handle { result ≡ bad_handle → session.old.live ≡ false }
    ensures none { session.old.live ≡ false → result ≡ bad_handle }
    ensures classes { result ≡ done → AreClasses (design_graph session.old.value.state.rows)
        (take count.new classes.new) }
    ensures count { (result ≡ done) ⊎ (result ≡ small_buffer)
        → count.new ≡ length (design_graph session.old.value.state.rows).streams }
    ensures small { result ≡ small_buffer → length classes.old < count.new }
    ensures nothing { session.old.live ≡ false → count.new ≡ 0 }
    ensures answers { (result ≡ done) ⊎ (result ≡ small_buffer) ⊎ (result ≡ no_memory)
        ⊎ (result ≡ bad_handle) }
{
    match replace(session, SessionHandle::none(alloc)).into_box() {
        Some(held) => {
            let status = write_plant(alloc, held.book(), classes, count);
            *session = SessionHandle::of(held);
            status
        }
        None => {
            *count = 0;
            BAD_HANDLE
        }
    }
}

// Writes the classes of the plant.
fn write_plant(alloc: Global, book: &Book, classes: &mut [u8], count: &mut usize) -> u8
    ensures classes { result ≡ done
        → AreClasses (design_graph book.now) (take count.new classes.new) }
    ensures count { (result ≡ done) ⊎ (result ≡ small_buffer)
        → count.new ≡ length (design_graph book.now).streams }
    ensures small { result ≡ small_buffer → length classes.old < count.new }
    ensures answers { (result ≡ done) ⊎ (result ≡ small_buffer) ⊎ (result ≡ no_memory) }
{
    match plant_classes(alloc, book, classes) {
        Ok(many) => {
            *count = many;
            if many > classes.len() {
                SMALL_BUFFER
            } else {
                DONE
            }
        }
        Err(AllocError) => NO_MEMORY,
    }
}

// Writes the classes of the plant, if there is room for all. Returns how many there are.
fn plant_classes(alloc: Global, book: &Book, room: &mut [u8]) -> Result<usize, AllocError>
    ensures count { IfOk result (λ many. many ≡ length (design_graph book.now).streams) }
    ensures classes { IfOk result (λ many. many ≤ length room.old
        → AreClasses (design_graph book.now) (take many room.new)) }
{
    let plant = design(alloc, book)?;
    let classes = classify(alloc, &plant)?;
    Ok(write_classes(classes.as_slice(), room))
}
