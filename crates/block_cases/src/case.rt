// A case: a report, and the lines that ask for its faults.

use crate::checked::append_checked;
use cases::{field, row_of};
use pb_rows::{Row, Rows, read_whole};
use std::alloc::{AllocError, Global};

/// A report, as the records of the lines so far.
#[derive(Drop)]
pub struct Case {
    alloc: Global,
    records: Rows,
}

/// The first word of a line: one that begins a case, one that asks for a fault, or that of a record.
#[derive(Clone, Copy)]
enum Word {
    Case,
    Whole,
    Field,
    Put,
    Add,
    Drop,
    Swap,
    Cut,
    Record,
}

impl Case {
    /// A report without records.
    pub fn new(alloc: Global) -> Case {
        Case {
            alloc,
            records: Rows::new(alloc),
        }
    }

    /// Appends the answer to a line, and the line. `case,..` begins a case. These lines ask what a check says of a report: `whole` of the
    /// report so far; `field,N,K,TEXT` of the report with TEXT in place of field K of record N, both counted from 1; `put,N,RECORD` with
    /// another record in place of record N; `add,N,RECORD` with a record before record N; `drop,N` without record N; `swap,N` with record N
    /// after the one that follows it; `cut,N` of its first N records. Any other line is a record of the report.
    pub fn line(&mut self, line: &[u8], text: &mut Vec<u8>) -> Result<(), AllocError> {
        let row = row_of(self.alloc, line)?;
        self.row(row, text)?;
        text.extend_from_slice(line)?;
        text.push(b'\n')?;
        Ok(())
    }

    // Begins a case, appends what is said of a report with a fault, or takes a record.
    fn row(&mut self, row: Row, text: &mut Vec<u8>) -> Result<(), AllocError> {
        match word_of(field(&row, 0)) {
            Word::Case => self.begin(),
            Word::Record => self.records.push(row),
            word => {
                append_checked(self.alloc, self.with_fault(word, &row)?, text)?;
                text.extend_from_slice(b": ")
            }
        }
    }

    fn begin(&mut self) -> Result<(), AllocError> {
        self.records = Rows::new(self.alloc);
        Ok(())
    }

    // The bytes of the report with the fault that a row asks for.
    fn with_fault(&self, word: Word, row: &Row) -> Result<Vec<u8>, AllocError> {
        let record = number(field(row, 1));
        let mut between = Vec::new(self.alloc);
        self.append_between(word, row, record, &mut between)?;
        match word {
            Word::Whole => self.around(self.records.len(), 0, &between),
            Word::Add => self.around(before(record), 0, &between),
            Word::Swap => self.around(before(record), 2, &between),
            Word::Cut => self.around(record, self.records.len(), &between),
            _ => self.around(before(record), 1, &between),
        }
    }

    // Appends what is put in place of the record of a number.
    fn append_between(
        &self,
        word: Word,
        row: &Row,
        record: usize,
        between: &mut Vec<u8>,
    ) -> Result<(), AllocError> {
        match word {
            Word::Field => self.append_changed(before(record), row, between),
            Word::Put | Word::Add => append_fields(row, 2, between),
            Word::Swap => {
                self.append_record(record, between)?;
                self.append_record(before(record), between)
            }
            _ => Ok(()),
        }
    }

    // The report without this many records from a place on, and with other bytes there.
    fn around(&self, place: usize, left_out: usize, between: &[u8]) -> Result<Vec<u8>, AllocError> {
        let mut report = Vec::new(self.alloc);
        for i in 0..self.records.len() {
            if i == place {
                report.extend_from_slice(between)?;
            }
            if i < place || i - place >= left_out {
                append_fields(self.records.at(i), 0, &mut report)?;
            }
        }
        if place >= self.records.len() {
            report.extend_from_slice(between)?;
        }
        Ok(report)
    }

    // Appends the record at a place, or nothing if there is none.
    fn append_record(&self, place: usize, bytes: &mut Vec<u8>) -> Result<(), AllocError> {
        if place < self.records.len() {
            append_fields(self.records.at(place), 0, bytes)?;
        }
        Ok(())
    }

    // Appends the record at a place, with the field that a row names changed as it says.
    fn append_changed(
        &self,
        place: usize,
        row: &Row,
        bytes: &mut Vec<u8>,
    ) -> Result<(), AllocError> {
        if place < self.records.len() {
            let mut changed = Row::new(self.alloc);
            push_changed(self.records.at(place), row, &mut changed)?;
            append_fields(&changed, 0, bytes)?;
        }
        Ok(())
    }
}

// Pushes the fields of a record, and in place of the field that a row names those that the row gives.
fn push_changed(whole: &Row, row: &Row, changed: &mut Row) -> Result<(), AllocError> {
    for i in 0..whole.len() {
        if i + 1 == number(field(row, 2)) {
            for k in 3..row.len() {
                changed.push(row.field(k))?;
            }
        } else {
            changed.push(whole.field(i))?;
        }
    }
    Ok(())
}

// The place of a record by its number.
fn before(record: usize) -> usize {
    if record > 0 { record - 1 } else { 0 }
}

// The number that a field writes, or 0 if it doesn't write the number of a record or a field.
fn number(field: &[u8]) -> usize {
    match read_whole(field, 0, 99_999) {
        Some(number) => usize::try_from(number).unwrap_or(0),
        None => 0,
    }
}

// Appends the fields of a row from a place on as a record.
fn append_fields(row: &Row, from: usize, bytes: &mut Vec<u8>) -> Result<(), AllocError> {
    for i in from..row.len() {
        if i > from {
            bytes.push(b',')?;
        }
        bytes.extend_from_slice(row.field(i))?;
    }
    bytes.push(b'\n')?;
    Ok(())
}

fn word_of(field: &[u8]) -> Word {
    match field {
        b"case" => Word::Case,
        b"whole" => Word::Whole,
        b"field" => Word::Field,
        b"put" => Word::Put,
        b"add" => Word::Add,
        b"drop" => Word::Drop,
        b"swap" => Word::Swap,
        b"cut" => Word::Cut,
        _ => Word::Record,
    }
}
