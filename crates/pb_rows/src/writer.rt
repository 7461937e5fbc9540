// Rows out: the text of the rows ended so far, and the fields of the row that is being filled.

ghost use Rattle.std.specs.Prelude.{◌≡◌, ◌<◌, ◌∷◌, ◌++◌, [], length, take, false, IfOk, IsTrue, OnOk, OnErr};
ghost use Rattle.std.specs.List.{list_any};
ghost use Rattle.csv.specs.Records.{fields_of};
ghost use Rattle.csv.specs.Writing.{default_writer, needs_quotes};
ghost use Rattle.pb_rows.specs.Number.{whole_text};
ghost use Rattle.pb_rows.specs.Written.{AddsField, AddsLine, EndsRow, line_of};

use crate::row::Row;
use csv::{ByteRecord, WriterBuilder};
use memchr::{memchr, memchr3};
use std::alloc::{AllocError, Global};
use std::marker::Model;

/// Writes rows as `csv` writes them, each ended by a line feed.
#[derive(Drop)]
pub struct RowWriter {
    text: Vec<u8>,
    row: Row,
}

impl Model for RowWriter {
    ghost use Rattle.pb_rows.specs.Written.{Written};

    ghost Value = { Written };

    ghost view = { λ a. record { text = a.text.items; row = a.row } };
}

impl RowWriter {
    /// A writer without any rows or fields yet.
    pub fn new(alloc: Global) -> RowWriter
        ensures { result ≡ record { text = []; row = [] } }
    {
        RowWriter {
            text: Vec::new(alloc),
            row: Row::new(alloc),
        }
    }

    /// Appends a field to the row that is being filled. After an `Err`, out of memory, all is as it was.
    pub fn field(&mut self, bytes: &[u8]) -> Result<(), AllocError>
        ensures appended { OnOk result (AddsField self.old self.new bytes.now) }
        ensures unchanged { OnErr result (self.new ≡ self.old) }
    {
        self.row.push(bytes)
    }

    /// Appends a whole number as a field, in the form that `read_whole` reads. After an `Err`, out of memory, all is as it was.
    pub fn whole(&mut self, value: i128) -> Result<(), AllocError>
        ensures appended { OnOk result (AddsField self.old self.new (whole_text value)) }
        ensures unchanged { OnErr result (self.new ≡ self.old) }
    {
        self.row.push_whole(value)
    }

    /// Ends the row: its line joins the text, and the next row begins without fields. After an `Err`, out of memory, all is
    /// as it was.
    pub fn end_row(&mut self) -> Result<(), AllocError>
        ensures ended { OnOk result (EndsRow self.old self.new) }
        ensures unchanged { OnErr result (self.new ≡ self.old) }
    {
        self.row.write_to(&mut self.text)?;
        self.row.clear();
        Ok(())
    }

    /// The rows ended so far, each as `csv` writes it and followed by a line feed.
    pub fn bytes(&self) -> &[u8]
        ensures { result.now ≡ self.now.text }
    {
        self.text.as_slice()
    }
}

impl Row {
    /// Appends the row to a text as `csv` writes it, followed by a line feed. After an `Err`, out of memory, the text
    /// is as it was.
    pub fn write_to(&self, text: &mut Vec<u8>) -> Result<(), AllocError>
        ensures appended { OnOk result (AddsLine text.old.items text.new.items self.now) }
        ensures unchanged { OnErr result (text.new.items ≡ text.old.items) }
    {
        if self.len() < 2 || !self.is_plain() {
            return write_quoted(self.as_record(), text);
        }
        let before = text.len();
        if let Err(error) = self.join_to(text) {
            text.truncate(before);
            return Err(error);
        }
        Ok(())
    }

    // Whether no byte of a field calls for quotes.
    fn is_plain(&self) -> bool
        ensures { IsTrue result → list_any (needs_quotes default_writer) self.now ≡ false }
    {
        let bytes = self.as_record().as_slice();
        memchr3(b',', b'"', b'\n', bytes).is_none() && memchr(b'\r', bytes).is_none()
    }

    // Appends the fields of a row that needs no quotes, separated by commas, and a line feed. After an `Err`, out of memory,
    // the text begins as before.
    fn join_to(&self, text: &mut Vec<u8>) -> Result<(), AllocError>
        requires several { 1 < length self.now }
        requires plain { list_any (needs_quotes default_writer) self.now ≡ false }
        ensures ok { OnOk result (AddsLine text.old.items text.new.items self.now) }
        ensures err { OnErr result
            (take (length text.old.items) text.new.items ≡ text.old.items) }
    {
        text.extend_from_slice(self.field(0))?;
        for i in 1..self.len() {
            text.push(b',')?;
            text.extend_from_slice(self.field(i))?;
        }
        text.push(b'\n')?;
        Ok(())
    }
}

// Appends the line of a row with any fields.
fn write_quoted(row: &ByteRecord, text: &mut Vec<u8>) -> Result<(), AllocError>
    ensures appended { OnOk result (AddsLine text.old.items text.new.items (fields_of row.now)) }
    ensures unchanged { OnErr result (text.new.items ≡ text.old.items) }
{
    let line = line_of(*text.allocator(), row)?;
    text.extend_from_slice(line.as_slice())
}

// The line of one row, by a new writer, so that neither the length of an earlier row nor a pending byte matters.
fn line_of(alloc: Global, row: &ByteRecord) -> Result<Vec<u8>, AllocError>
    ensures { IfOk result (λ line. line.items ≡ line_of (fields_of row.now)) }
{
    let mut writer = WriterBuilder::new().from_writer(Vec::new(alloc));
    writer.write_byte_record(row).map_err(|_| AllocError)?;
    writer.into_inner().map_err(|_| AllocError)
}
