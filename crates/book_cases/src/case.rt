// A case: a book, and the lines that are put to it.

ghost use Rattle.std.specs.Prelude.{◌<◌, length, IfSome};
ghost use Rattle.pb_book.specs.Rows.{periods_of};

use cases::{append_word, field, fields_from, row_of};
use pb_book::{Accepted, Book, NotAccepted, Refused};
use pb_kinds::{Edit, Effect, StoredRow};
use pb_rows::{Name, Row, Rows};
use std::alloc::{AllocError, Global};

/// A book, with the records that it has stored.
#[derive(Drop)]
pub struct Case {
    alloc: Global,
    book: Box<Book>,
    stored: Rows,
}

/// The first word of a line: one that asks, or that of a record.
#[derive(Clone, Copy)]
enum Word {
    Case,
    Try,
    Plain,
    Edits,
    Touched,
    Record,
}

impl Case {
    /// A book without rows.
    pub fn new(alloc: Global) -> Result<Case, AllocError> {
        Ok(Case {
            alloc,
            book: new_book(alloc)?,
            stored: Rows::new(alloc),
        })
    }

    /// Appends the answer to a line, and the line. `case,..` begins a case; `try,RECORD` asks for the answer to a record after the stored
    /// ones, which stay as they are; `plain` asks for the plain rows; `edits,PERIOD` asks for the edits that touch a period;
    /// `touched,PERIOD` asks whether the row stored last takes it out. Any other line is a record that the book takes.
    pub fn line(&mut self, line: &[u8], text: &mut Vec<u8>) -> Result<(), AllocError> {
        let row = row_of(self.alloc, line)?;
        self.row(&row, text)?;
        text.extend_from_slice(line)?;
        text.push(b'\n')?;
        Ok(())
    }

    // Appends the answer to the fields of a line.
    fn row(&mut self, row: &Row, text: &mut Vec<u8>) -> Result<(), AllocError> {
        match word_of(field(row, 0)) {
            Word::Case => self.begin(),
            Word::Try => self.try_after(row, text),
            Word::Plain => self.plain(text),
            Word::Edits => self.edits(field(row, 1), text),
            Word::Touched => self.touched(field(row, 1), text),
            Word::Record => self.take(row, text),
        }
    }

    // Begins a case.
    fn begin(&mut self) -> Result<(), AllocError> {
        *self = Case::new(self.alloc)?;
        Ok(())
    }

    // The book takes a record.
    fn take(&mut self, row: &Row, text: &mut Vec<u8>) -> Result<(), AllocError> {
        let told = self.book.accept(1, row);
        if told == Ok(Accepted::Stored) {
            self.stored.push(fields_from(self.alloc, row, 0)?)?;
        }
        append_word(text, answer(told))
    }

    // A book that has stored the same records takes the record after the first field.
    fn try_after(&self, row: &Row, text: &mut Vec<u8>) -> Result<(), AllocError> {
        let record = fields_from(self.alloc, row, 1)?;
        let mut book = self.same_book()?;
        append_word(text, answer(book.accept(1, &record)))
    }

    // A book that has stored the same records.
    fn same_book(&self) -> Result<Box<Book>, AllocError> {
        let mut book = new_book(self.alloc)?;
        accept_all(&mut book, &self.stored);
        Ok(book)
    }

    fn plain(&self, text: &mut Vec<u8>) -> Result<(), AllocError> {
        let plain = self.book.plain(self.alloc)?;
        write_rows(&plain, text)
    }

    fn edits(&self, period: &[u8], text: &mut Vec<u8>) -> Result<(), AllocError> {
        let Some(period) = self.period(period) else {
            return append_word(text, b"unknown");
        };
        for e in 0..self.book.edits() {
            if self.book.touches(e, period) {
                tell_edit(text, self.book.edit(e))?;
            }
        }
        Ok(())
    }

    fn touched(&self, period: &[u8], text: &mut Vec<u8>) -> Result<(), AllocError> {
        match self.period(period) {
            Some(period) if self.book.touched(period) => append_word(text, b"yes"),
            Some(_) => append_word(text, b"no"),
            None => append_word(text, b"unknown"),
        }
    }

    // The place of the period of a name.
    fn period(&self, name: &[u8]) -> Option<u32>
        ensures { IfSome result (λ place. place < length (periods_of self.now.book.value)) }
    {
        let place = self.book.period_of(&Name::read(name)?)?;
        if place < self.book.periods() {
            Some(place)
        } else {
            None
        }
    }
}

fn new_book(alloc: Global) -> Result<Box<Book>, AllocError> {
    Ok(Box::new(alloc, Book::new(alloc))?)
}

// A book takes records.
fn accept_all(book: &mut Book, records: &Rows) {
    for record in records.iter() {
        let _ = book.accept(1, record);
    }
}

// Appends records, each as a line.
fn write_rows(records: &Rows, text: &mut Vec<u8>) -> Result<(), AllocError> {
    for record in records.iter() {
        record.write_to(text)?;
    }
    Ok(())
}

fn word_of(field: &[u8]) -> Word {
    match field {
        b"case" => Word::Case,
        b"try" => Word::Try,
        b"plain" => Word::Plain,
        b"edits" => Word::Edits,
        b"touched" => Word::Touched,
        _ => Word::Record,
    }
}

fn tell_edit(text: &mut Vec<u8>, edit: Option<StoredRow>) -> Result<(), AllocError> {
    let Some(edit) = edit else {
        return Ok(());
    };
    append_word(text, edit_word(&edit.effect))?;
    match edit_id(&edit.effect) {
        Some(id) => append_word(text, id.bytes()),
        None => Ok(()),
    }
}

fn edit_word(effect: &Effect) -> &'static [u8] {
    match effect {
        Effect::Closes(_) => b"close",
        Effect::Books { .. } => b"late",
        Effect::Edits { edit, .. } => match edit {
            Edit::Change(_) => b"amend",
            Edit::Strike => b"strike",
        },
        Effect::Declares(_) | Effect::Opens { .. } | Effect::Assays(_) => b"none",
    }
}

fn edit_id(effect: &Effect) -> Option<Name> {
    match effect {
        Effect::Books { fact, .. } => Some(fact.id()),
        Effect::Edits { id, .. } => Some(*id),
        _ => None,
    }
}

fn answer(told: Result<Accepted, NotAccepted>) -> &'static [u8] {
    match told {
        Ok(Accepted::Blank) => b"blank",
        Ok(Accepted::Stored) => b"stored",
        Ok(Accepted::Design) => b"design",
        Ok(Accepted::Report(_)) => b"report",
        Ok(Accepted::History(_)) => b"history",
        Ok(Accepted::Advise) => b"advise",
        Ok(Accepted::Window { .. }) => b"window",
        Ok(Accepted::Component { .. }) => b"component",
        Err(NotAccepted::NoMemory) => b"memory",
        Err(NotAccepted::Refused(cause)) => refusal(cause),
    }
}

fn refusal(cause: Refused) -> &'static [u8] {
    match cause {
        Refused::Kind => b"kind",
        Refused::Fields => b"fields",
        Refused::BadName => b"name",
        Refused::Number => b"number",
        Refused::Date => b"date",
        Refused::Unknown => b"unknown",
        Refused::Duplicate => b"duplicate",
        Refused::Order => b"order",
        Refused::Mismatch => b"mismatch",
        Refused::Sealed => b"sealed",
        Refused::Closed => b"closed",
        Refused::Range => b"range",
        Refused::Full => b"full",
    }
}
