// A record: a list of fields, each a list of bytes.

ghost use Rattle.std.specs.Prelude.{◌≡◌, ◌<◌, ◌≤◌, ◌∷◌, ◌++◌, [], length, map, min, take, slice_index_or, IfOk, IfErr, OnOk, OnErr, IsTrue, ◌↔◌};
ghost use Rattle.csv.specs.Reading.{NotLengths, Ready, error_kind};
ghost use Rattle.csv.specs.Records.{fields_of, partial_of};
ghost use Rattle.pb_rows.specs.InHand.{IsBetween, ReadsFirst};
ghost use Rattle.pb_rows.specs.Number.{whole_text};
ghost use Rattle.pb_rows.specs.Records.{without_trailing_empty};

use csv::{ByteRecord, Error, Reader};
use itoa::Buffer;
use std::alloc::{AllocError, Global};
use std::marker::Model;

// The room that a row is made with: usual records have fewer bytes, and no more fields.
const USUAL_BYTES: usize = 64;

const USUAL_FIELDS: usize = 8;

/// A record: a list of fields, each of which is a list of bytes. It is kept as `csv` reads it.
#[derive(Debug, Drop)]
pub struct Row {
    fields: ByteRecord,
    // Whether it is known that no bytes of an unfinished field lie after the fields.
    tidy: bool,
}

impl Model for Row {
    ghost use Rattle.std.specs.Prelude.{◌≡◌, List, ℕ, [], true};
    ghost use Rattle.csv.specs.Records.{fields_of, partial_of};

    ghost Value = { List (List ℕ) };

    ghost view = { λ a. fields_of a.fields };

    ghost invariant = { λ a. a.tidy ≡ true → partial_of a.fields ≡ [] };
}

impl Row {
    /// The row without fields.
    pub fn new(alloc: Global) -> Row
        ensures { result ≡ [] }
    {
        Row {
            fields: ByteRecord::new(alloc),
            tidy: true,
        }
    }

    // The row without fields, with room for a usual record.
    pub(crate) fn with_room(alloc: Global) -> Result<Row, AllocError>
        ensures { IfOk result (λ row. row ≡ []) }
    {
        Ok(Row {
            fields: ByteRecord::with_capacity(alloc, USUAL_BYTES, USUAL_FIELDS)?,
            tidy: true,
        })
    }

    /// Appends a field. After an `Err`, out of memory, the row is as it was.
    pub fn push(&mut self, field: &[u8]) -> Result<(), AllocError>
        ensures appended { OnOk result (self.new ≡ self.old ++ field.now ∷ []) }
        ensures unchanged { OnErr result (self.new ≡ self.old) }
    {
        if !self.tidy {
            drop_unfinished(&mut self.fields)?;
        }
        self.tidy = false;
        self.fields.push_field(field)?;
        self.tidy = true;
        Ok(())
    }

    /// Appends a whole number as a field, in the form that `read_whole` reads. After an `Err`, out of memory, the row is as it was.
    pub fn push_whole(&mut self, value: i128) -> Result<(), AllocError>
        ensures appended { OnOk result (self.new ≡ self.old ++ whole_text value ∷ []) }
        ensures unchanged { OnErr result (self.new ≡ self.old) }
    {
        let mut digits = Buffer::new();
        self.push(digits.format(value).as_bytes())
    }

    /// Removes all fields. The memory stays for fields to come.
    pub fn clear(&mut self)
        ensures { self.new ≡ [] }
    {
        self.fields.clear();
        self.tidy = true;
    }

    // Takes the next record of a reader in place of the fields, and returns whether there was one.
    pub(crate) fn read(&mut self, reader: &mut Reader<&[u8]>) -> Result<bool, Error>
        requires stands { IsBetween reader.old }
        requires ready { Ready reader.old }
        ensures reads { IfOk result (λ found. ReadsFirst reader.old reader.new found self.new) }
        ensures refused { IfErr result (λ e. NotLengths (error_kind e)) }
    {
        self.tidy = false;
        reader.read_byte_record(&mut self.fields)
    }

    // The record as `csv` has it.
    pub(crate) fn as_record(&self) -> &ByteRecord
        ensures { fields_of result.now ≡ self.now }
    {
        &self.fields
    }

    /// The number of fields.
    pub fn len(&self) -> usize
        ensures { result ≡ length self.now }
    {
        self.fields.len()
    }

    /// Whether the row has no field.
    pub fn is_empty(&self) -> bool
        ensures { IsTrue result ↔ (self.now ≡ []) }
    {
        self.fields.is_empty()
    }

    /// The bytes of the field at a place, counted from 0.
    pub fn field(&self, i: usize) -> &[u8]
        requires { i < length self.now }
        ensures { result.now ≡ slice_index_or self.now i [] }
    {
        self.fields.get(i).unwrap_or(b"")
    }

    /// Lends the fields up to the last one that isn't empty, in order, as many as there are places for, and returns how
    /// many it lends.
    pub fn lend<'a>(&'a self, places: &mut [&'a [u8]]) -> usize
        ensures within { result ≤ length places.old }
        ensures fields { map (λ field. field.now) (take result places.new)
            ≡ take (length places.old) (without_trailing_empty self.now) }
    {
        let count = fewer(self.filled(), places.len());
        for i in 0..count {
            places[i] = self.field(i);
        }
        count
    }

    /// The number of fields up to the last one that isn't empty: spreadsheets pad rows with empty fields.
    pub fn filled(&self) -> usize
        ensures within { result ≤ length self.now }
        ensures filled { take result self.now ≡ without_trailing_empty self.now }
    {
        let mut filled = self.len();
        while filled > 0 && self.field(filled - 1).is_empty() {
            filled -= 1;
        }
        filled
    }
}

// The lesser of two numbers.
fn fewer(a: usize, b: usize) -> usize
    ensures { result ≡ min a b }
{
    if a < b { a } else { b }
}

// Removes the bytes of an unfinished field: they are made a field, and that field is removed.
fn drop_unfinished(fields: &mut ByteRecord) -> Result<(), AllocError>
    ensures same { fields_of fields.new ≡ fields_of fields.old }
    ensures none { OnOk result (partial_of fields.new ≡ []) }
{
    let count = fields.len();
    fields.push_field(b"")?;
    fields.truncate(count);
    Ok(())
}
