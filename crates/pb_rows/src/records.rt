// The records of a text: all of them in a list, or one at a time.

ghost use Rattle.std.specs.Prelude.{◌≡◌, ◌<◌, ◌^◌, ◌≤◌, ◌∷◌, ◌++◌, [], length, slice_index_or, IfOk, OnOk, OnErr, IsTrue, ◌↔◌, true, false};
ghost use Rattle.std.specs.Slice.Iter.{iter_rest};
ghost use Rattle.csv.specs.Reading.{NotLengths, Ready, error_kind, names_headers};
ghost use Rattle.pb_rows.specs.InHand.{IsBetween, IsReady, ReadsFirst, records_left};
ghost use Rattle.pb_rows.specs.Records.{records_of};
ghost use Rattle.pb_rows.specs.RecordsLeft.{FillsNext, TakesNext};

use crate::row::Row;
use csv::{ByteRecord, Error, Reader, ReaderBuilder};
use std::alloc::{AllocError, Global};
use std::marker::Model;
use std::slice::Iter;

/// The records of bytes in memory, one at a time, as `csv` reads them: with the comma, the double quote and its default
/// terminator, without headers or trimming, and records of any lengths.
#[derive(Drop)]
pub struct Records<'a> {
    alloc: Global,
    reader: Reader<&'a [u8]>,
    taken: usize,
    ended: bool,
}

impl<'a> Model for Records<'a> {
    ghost use Rattle.pb_rows.specs.RecordsLeft.{RecordsLeft};
    ghost use Rattle.pb_rows.specs.InHand.{IsInHand, records_left};

    ghost Value = { RecordsLeft };

    ghost view = { λ a. record { taken = a.taken; left = records_left a.reader a.ended } };

    ghost invariant = { λ a. IsInHand a.reader a.ended a.taken };
}

impl<'a> Records<'a> {
    /// The records of these bytes, none taken yet.
    pub fn of(alloc: Global, bytes: &'a [u8]) -> Records<'a>
        ensures records { result ≡ record { taken = 0; left = records_of bytes.now } }
        ensures at_most_bytes { length result.left ≤ length bytes.now }
    {
        count_fits(bytes);
        let reader = ReaderBuilder::new()
            .flexible(true)
            .from_reader(alloc, bytes);
        Records {
            alloc,
            reader,
            taken: 0,
            ended: false,
        }
    }

    /// Takes the next record, if one is left. After an `Err`, out of memory, none is left, and no more are taken than before.
    pub fn next(&mut self) -> Result<Option<Row>, AllocError>
        ensures ok { IfOk result (λ row. TakesNext self.old self.new row) }
        ensures err { OnErr result (self.new.left ≡ []) }
        ensures err_taken { OnErr result (self.new.taken ≡ self.old.taken) }
    {
        if self.ended {
            return Ok(None);
        }
        match Row::with_room(self.alloc) {
            Ok(mut row) => {
                if self.fill(&mut row)? {
                    Ok(Some(row))
                } else {
                    Ok(None)
                }
            }
            Err(error) => {
                self.ended = true;
                Err(error)
            }
        }
    }

    /// Takes the next record into a row, in place of its fields, and returns whether one was left. If none was, and after an
    /// `Err`, out of memory, the row has no fields, no record is left, and no more are taken than before.
    pub fn fill(&mut self, row: &mut Row) -> Result<bool, AllocError>
        ensures ok { IfOk result (λ found. FillsNext self.old self.new row.new found) }
        ensures err { OnErr result (self.new.left ≡ []) }
        ensures err_taken { OnErr result (self.new.taken ≡ self.old.taken) }
        ensures err_row { OnErr result (row.new ≡ []) }
    {
        if self.ended {
            row.clear();
            return Ok(false);
        }
        match read_next(self.alloc, &mut self.reader, self.taken == 0, row) {
            Ok(true) => {
                self.taken += 1;
                Ok(true)
            }
            Ok(false) => {
                self.ended = true;
                row.clear();
                Ok(false)
            }
            Err(error) => {
                self.ended = true;
                row.clear();
                Err(error)
            }
        }
    }

    /// How many records were taken.
    pub fn taken(&self) -> usize
        ensures { result ≡ self.now.taken }
    {
        self.taken
    }
}

/// The records of a text, in order.
#[derive(Debug, Drop)]
pub struct Rows {
    rows: Vec<Row>,
}

impl Model for Rows {
    ghost use Rattle.std.specs.Prelude.{List, ℕ};

    ghost Value = { List (List (List ℕ)) };

    ghost view = { λ a. a.rows.items };
}

impl Rows {
    /// An empty list.
    pub fn new(alloc: Global) -> Rows
        ensures { result ≡ [] }
    {
        Rows {
            rows: Vec::new(alloc),
        }
    }

    /// Appends a row. After an `Err`, out of memory, the rows are as they were.
    pub fn push(&mut self, row: Row) -> Result<(), AllocError>
        ensures appended { OnOk result (self.new ≡ self.old ++ row ∷ []) }
        ensures unchanged { OnErr result (self.new ≡ self.old) }
    {
        self.rows.push(row)?;
        Ok(())
    }

    /// The records of a text, as `Records` takes them one at a time. Out of memory is the only error.
    pub fn of(alloc: Global, bytes: &[u8]) -> Result<Rows, AllocError>
        ensures records { IfOk result (λ rows. rows ≡ records_of bytes.now) }
        ensures at_most_bytes { IfOk result (λ rows. length rows ≤ length bytes.now) }
    {
        let mut records = Records::of(alloc, bytes);
        let mut rows = Rows::new(alloc);
        while let Some(row) = records.next()? {
            rows.push(row)?;
        }
        Ok(rows)
    }

    /// The number of records.
    pub fn len(&self) -> usize
        ensures { result ≡ length self.now }
    {
        self.rows.len()
    }

    /// Whether there are no records.
    pub fn is_empty(&self) -> bool
        ensures { IsTrue result ↔ (self.now ≡ []) }
    {
        self.rows.is_empty()
    }

    /// The records in order.
    pub fn iter(&self) -> Iter<'_, Row>
        ensures { iter_rest result ≡ self.now }
    {
        self.rows.iter()
    }

    /// The record at a place, counted from 0.
    pub fn at(&self, i: usize) -> &Row
        requires { i < length self.now }
        ensures { result.now ≡ slice_index_or self.now i [] }
    {
        &self.rows[i]
    }
}

// Reads the next record of a reader into a row, and returns whether there was one. Before its first record the reader is given a
// header row without fields: else it would keep that record as its header row, in two copies more.
fn read_next(
    alloc: Global,
    reader: &mut Reader<&[u8]>,
    first: bool,
    row: &mut Row,
) -> Result<bool, AllocError>
    requires stands { IsBetween reader.old }
    requires ready { IsReady first reader.old }
    ensures reads { IfOk result (λ found. ReadsFirst reader.old reader.new found row.new) }
{
    if first {
        give_header(alloc, reader)?;
    }
    match row.read(reader) {
        Ok(found) => Ok(found),
        Err(error) => Err(out_of_memory(error)),
    }
}

// Gives a reader a header row without fields, so that its next record is one like all others.
fn give_header(alloc: Global, reader: &mut Reader<&[u8]>) -> Result<(), AllocError>
    requires stands { IsBetween reader.old }
    requires named { names_headers reader.old ≡ true }
    ensures stands { OnOk result (IsBetween reader.new) }
    ensures ready { OnOk result (Ready reader.new) }
    ensures records { OnOk result
        (records_left reader.new false ≡ records_left reader.old false) }
{
    reader
        .set_byte_headers(ByteRecord::new(alloc))
        .map_err(|_| AllocError)
}

// There are at most as many records as bytes, and the number of bytes fits in 64 bits, as their length shows.
fn count_fits(bytes: &[u8])
    ensures { length bytes.now < 2 ^ 64 }
{
    let _size = bytes.len();
}

// A flexible reader of bytes fails only if out of memory, never for a record's length.
fn out_of_memory(_error: Error) -> AllocError
    requires { NotLengths (error_kind _error) }
{
    AllocError
}
