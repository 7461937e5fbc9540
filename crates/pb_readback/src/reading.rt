// Reads one block after another from records.

ghost use Rattle.std.specs.Prelude.{◌≡◌, ◌≢◌, ◌+◌, ◌^◌, ◌<◌, true, false, length, map, Some, None, IfOk, IfErr, OnErr, OnOk, IfSome};
ghost use Rattle.pb_rows.specs.RecordsLeft.{TakesNext};
ghost use Rattle.pb_limits.specs.Limits.{most_streams};
ghost use Rattle.pb_blocks.specs.Counts.{IsHeading};
ghost use Rattle.pb_blocks.specs.Results.{result_of};
ghost use Rattle.pb_readback.specs.declared.reading.ReadRefused.TheVariants.{At, NoMemory};
ghost use Rattle.pb_readback.specs.Faults.{fault_behind, first_unknown};
ghost use Rattle.pb_readback.specs.Drafts.{draft_of, draft_with_row};
ghost use Rattle.pb_readback.specs.Next.{AreCounted, IsNext, IsReadRefused, IsWithinGiven, next_by};
ghost use Rattle.pb_readback.specs.Reading.{Breaks, BreaksFrom, Ends, HaveParts, IsReadFrom, IsReadWhole, IsUnderWay, KeepsResults, RefusesPart, RefusesRow, Skips, is_stream_kind};
ghost use Rattle.pb_readback.specs.WellFormed.{IsWellFormedBlock};

use crate::block::{Block, first_on_stream};
use crate::draft::Draft;
use pb_blocks::{Heading, RowFault, heading_in, is_passed_over};
use pb_graph::List;
use pb_rows::{Records, Row};
use pb_study::StreamResult;
use std::alloc::{AllocError, Global};

/// Why no block is read: the number of the first row that has a fault, and its fault; or out of memory.
#[derive(Clone, Copy, PartialEq, Eq, Debug)]
pub enum ReadRefused {
    At { row: u32, fault: RowFault },
    NoMemory,
}

impl From<AllocError> for ReadRefused {
    ghost from_gives = { λ _ refused. refused ≡ NoMemory };

    fn from(_: AllocError) -> ReadRefused {
        ReadRefused::NoMemory
    }
}

/// Reads the next block. `Ok(None)` exactly when none follows and each record left is one that is skipped; `At` exactly at the
/// first record that can't be read, with the lowest of its faults. After `At` that record was taken and none after it; but if the
/// fault is a name in a stream's parts, the records of all streams of the block were taken, and none after them. After `NoMemory`
/// every record that counts as taken was given.
pub fn read(alloc: Global, records: &mut Records) -> Result<Option<Block>, ReadRefused>
    requires few { records.old.taken + length records.old.left < 2 ^ 31 }
    ensures next { IfOk result
        (λ found. IsNext records.old.taken records.old.left (next_by found records.new.left)) }
    ensures refused { IfErr result (IsReadRefused records.old records.new) }
    ensures counted { OnOk result (AreCounted records.old records.new) }
    ensures formed { IfOk result (λ found. IfSome found IsWellFormedBlock) }
{
    let Some(row) = first_row(records)? else {
        return Ok(None);
    };
    Ok(Some(block_from(alloc, &row, records)?))
}

// Takes the rows that are skipped, and the first row that isn't.
fn first_row(records: &mut Records) -> Result<Option<Row>, AllocError>
    ensures skips { IfOk result (Skips records.old.left records.new.left) }
    ensures counted { OnOk result (AreCounted records.old records.new) }
    ensures err { OnErr result (IsWithinGiven records.old records.new) }
{
    while let Some(row) = records.next()? {
        if !is_passed_over(&row) {
            return Ok(Some(row));
        }
    }
    Ok(None)
}

// The block that a row opens; the row is the last one taken.
fn block_from(alloc: Global, first: &Row, records: &mut Records) -> Result<Block, ReadRefused>
    requires few { records.old.taken + length records.old.left < 2 ^ 31 }
    ensures ok { IfOk result (IsReadFrom first.now records.old.left records.new.left) }
    ensures err { IfErr result (BreaksFrom first.now records.old records.new) }
    ensures counted { OnOk result (AreCounted records.old records.new) }
{
    match heading_in(first) {
        Ok(heading) => block_of(alloc, heading, records),
        Err(fault) => Err(refused(records.taken() as u32, fault)),
    }
}

// The block after a heading, whose row is the last one taken.
fn block_of(alloc: Global, heading: Heading, records: &mut Records) -> Result<Block, ReadRefused>
    requires heading { IsHeading heading }
    requires few { records.old.taken + length records.old.left < 2 ^ 31 }
    ensures ok { IfOk result (IsReadWhole (draft_of heading) records.old.left records.new.left) }
    ensures err { IfErr result (Breaks (draft_of heading) records.old records.new) }
    ensures counted { OnOk result (AreCounted records.old records.new) }
{
    let opened = records.taken() as u32;
    let mut draft = Draft::new(alloc, heading);
    let mut results = List::new(alloc);
    let mut row = Row::new(alloc);
    while !draft.is_ended() {
        next_row(records, &mut row)?;
        add_row(alloc, &mut draft, &row, records.taken() as u32)?;
        look_up(alloc, &draft, opened, &mut results)?;
    }
    Ok(draft.block(results, alloc)?)
}

// Takes the next row of a block that isn't at its end, in place of the row before it.
fn next_row(records: &mut Records, row: &mut Row) -> Result<(), ReadRefused>
    requires few { records.old.taken < 2 ^ 31 }
    ensures ok { OnOk result (TakesNext records.old records.new (Some row.new)) }
    ensures err { IfErr result (Ends records.old records.new) }
{
    if records.fill(row)? {
        Ok(())
    } else {
        Err(refused(records.taken() as u32 + 1, RowFault::Ended))
    }
}

// Adds a row of this number to a draft, if it has no fault.
fn add_row(alloc: Global, draft: &mut Draft, row: &Row, number: u32) -> Result<(), ReadRefused>
    requires way { IsUnderWay draft.old }
    requires parts { HaveParts draft.old }
    ensures fine { OnOk result (fault_behind draft.old row.now ≡ None) }
    ensures told { OnOk result (draft.new ≡ draft_with_row draft.old row.now) }
    ensures err { IfErr result (RefusesRow draft.old row.now number) }
{
    match draft.read(alloc, row)? {
        None => Ok(()),
        Some(fault) => Err(refused(number, fault)),
    }
}

// Once the last stream of a block is read, looks up the names in its parts, and keeps the results. The block's first row has
// this number.
fn look_up(
    alloc: Global,
    draft: &Draft,
    opened: u32,
    results: &mut List<StreamResult>,
) -> Result<(), ReadRefused>
    requires way { IsUnderWay draft.now }
    requires few { opened < 2 ^ 31 }
    requires kept { is_stream_kind draft.now.last ≡ false → KeepsResults draft.now results.old }
    ensures ok { OnOk result
        (is_stream_kind draft.now.last ≡ true → first_unknown draft.now ≡ None) }
    ensures kept { OnOk result (KeepsResults draft.now results.new) }
    ensures err { IfErr result (RefusesPart draft.now opened) }
{
    if !draft.is_at_last_stream() {
        return Ok(());
    }
    *results = draft.results(alloc)?;
    match unknown_in(draft, results.as_slice()) {
        Some(stream) => {
            let row = opened + draft.heading.nodes + stream + 1;
            Err(refused(row, RowFault::Unknown))
        }
        None => Ok(()),
    }
}

// The first stream with an unknown part, by the results of all streams: a name that no stream has gets their number as its place.
fn unknown_in(draft: &Draft, results: &[StreamResult]) -> Option<u32>
    requires way { IsUnderWay draft.now }
    requires all { length draft.now.streams ≡ draft.now.heading.streams }
    requires results { results.now ≡ map (result_of draft.now.streams) draft.now.rows }
    ensures value { result ≡ first_unknown draft.now }
    ensures few { IfSome result (λ stream. stream < most_streams) }
{
    Some(first_on_stream(results, draft.heading.streams)? as u32)
}

fn refused(row: u32, fault: RowFault) -> ReadRefused
    ensures { result ≡ At row fault }
{
    ReadRefused::At { row, fault }
}
