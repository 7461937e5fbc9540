// A case: a session, and the lines that are put to it.

ghost use Rattle.std.specs.Prelude.{◌≡◌, ◌<◌, ◌↔◌, length, Contains, IfSome, IsTrue};
ghost use Rattle.pb_book.specs.Rows.{periods_of};
ghost use Rattle.pb_study.specs.Options.{AreOptions};

use cases::{append_word, field, fields_from, row_of};
use pb_book::Book;
use pb_graph::Class;
use pb_report::Form;
use pb_rows::{Name, Row, Rows, whole_bytes};
use pb_session::Session;
use pb_study::{Options, Study};
use std::alloc::{AllocError, Global};

/// A session, with the records that it has taken.
#[derive(Drop)]
pub struct Case {
    alloc: Global,
    eliminates: bool,
    session: Box<Session>,
    taken: Rows,
}

/// The first word of a line: one that asks, or that of a record.
#[derive(Clone, Copy)]
enum Word {
    Case,
    Rounds,
    Try,
    Study,
    Classes,
    Record,
}

/// What a session answers to a record.
#[derive(Drop)]
struct Answer {
    added: Vec<u8>,
    refused: bool,
    is_report: bool,
}

impl Case {
    /// A session without rows, whose studies have three rounds of elimination or no tests.
    pub fn new(alloc: Global, eliminates: bool) -> Result<Case, AllocError> {
        Ok(Case {
            alloc,
            eliminates,
            session: new_session(alloc, eliminates)?,
            taken: Rows::new(alloc),
        })
    }

    /// Appends the answer to a line, and the line. `case,..` begins a case, and `rounds,..` one with rounds of elimination; `try,RECORD`
    /// asks for the answer to a record after those taken, which stay as they are; `study,PERIOD` asks for the number of stages and the
    /// flows of the study that is kept for a period; `classes` asks for the kept classes of the streams. Any other line is a record that
    /// the session takes.
    pub fn line(&mut self, line: &[u8], text: &mut Vec<u8>) -> Result<(), AllocError> {
        let row = row_of(self.alloc, line)?;
        self.row(&row, text)?;
        text.extend_from_slice(line)?;
        text.push(b'\n')?;
        Ok(())
    }

    // Appends the answer to the fields of a line.
    fn row(&mut self, row: &Row, text: &mut Vec<u8>) -> Result<(), AllocError> {
        match word_of(field(row, 0)) {
            Word::Case => self.begin(false),
            Word::Rounds => self.begin(true),
            Word::Try => self.try_after(row, text),
            Word::Study => self.tell_study(field(row, 1), text),
            Word::Classes => self.tell_classes(text),
            Word::Record => self.take(row, text),
        }
    }

    // Begins a case.
    fn begin(&mut self, eliminates: bool) -> Result<(), AllocError> {
        *self = Case::new(self.alloc, eliminates)?;
        Ok(())
    }

    // The session takes a record.
    fn take(&mut self, row: &Row, text: &mut Vec<u8>) -> Result<(), AllocError> {
        let answer = take_record(self.alloc, &mut self.session, row)?;
        self.tell_taken(&answer, row, text)?;
        self.taken.push(fields_from(self.alloc, row, 0)?)
    }

    // Appends what the session answered to a record, and which studies it keeps.
    fn tell_taken(&self, answer: &Answer, row: &Row, text: &mut Vec<u8>) -> Result<(), AllocError> {
        if answer.is_report {
            self.tell_same(&answer.added, row, text)?;
        }
        tell_kept(text, &self.session, answer.refused)
    }

    // A session that has taken the same records takes the record after the first field.
    fn try_after(&self, row: &Row, text: &mut Vec<u8>) -> Result<(), AllocError> {
        let record = fields_from(self.alloc, row, 1)?;
        let mut session = self.session_after(&self.taken)?;
        try_record(self.alloc, &mut session, &record, text)
    }

    // Whether a report has the text of the report after only the plain rows.
    fn tell_same(&self, added: &[u8], report: &Row, text: &mut Vec<u8>) -> Result<(), AllocError> {
        let plain = self.plain_report(report)?;
        append_word(
            text,
            if added == plain.as_slice() {
                b"plain"
            } else {
                b"other"
            },
        )
    }

    // What a report adds after only the plain rows.
    fn plain_report(&self, report: &Row) -> Result<Vec<u8>, AllocError> {
        let mut session = self.plain_session()?;
        added_by(self.alloc, &mut session, report)
    }

    // A session that has taken only the plain rows.
    fn plain_session(&self) -> Result<Box<Session>, AllocError> {
        let plain = self.session.book().plain(self.alloc)?;
        self.session_after(&plain)
    }

    // A session that has taken these records.
    fn session_after(&self, rows: &Rows) -> Result<Box<Session>, AllocError> {
        let mut session = new_session(self.alloc, self.eliminates)?;
        take_all(self.alloc, &mut session, rows)?;
        Ok(session)
    }

    fn tell_study(&self, period: &[u8], text: &mut Vec<u8>) -> Result<(), AllocError> {
        let Some(place) = place_of(self.session.book(), period) else {
            return append_word(text, b"unknown");
        };
        match self.session.kept(place) {
            Some(study) => self.tell_flows(study, text),
            None => append_word(text, b"none"),
        }
    }

    // The number of stages, and the flows of the first one.
    fn tell_flows(&self, study: &Study, text: &mut Vec<u8>) -> Result<(), AllocError> {
        self.tell_number(study.stages.len() as i128, text)?;
        if study.stages.len() > 0 {
            for result in study.stages.at(0).streams.as_slice() {
                self.tell_number(result.flow, text)?;
            }
        }
        Ok(())
    }

    fn tell_number(&self, number: i128, text: &mut Vec<u8>) -> Result<(), AllocError> {
        append_word(text, whole_bytes(self.alloc, number)?.as_slice())
    }

    fn tell_classes(&self, text: &mut Vec<u8>) -> Result<(), AllocError> {
        match self.session.classes() {
            Some(stage) => {
                for result in stage.streams.as_slice() {
                    append_word(text, class_word(result.classified.class))?;
                }
                Ok(())
            }
            None => append_word(text, b"none"),
        }
    }
}

fn new_session(alloc: Global, eliminates: bool) -> Result<Box<Session>, AllocError> {
    let session = Session::new(alloc, asked(eliminates), Form::Csv);
    Ok(Box::new(alloc, session)?)
}

// A session takes a record.
fn take_record(alloc: Global, session: &mut Session, row: &Row) -> Result<Answer, AllocError> {
    let mut added = Vec::new(alloc);
    let refused = session.row(1, row, &mut added)?.is_some();
    Ok(Answer {
        is_report: asks_for_report(field(row, 0)) && !refused,
        added,
        refused,
    })
}

// Whether a record of this kind asks for a report, or for the balance of a component, which has one.
fn asks_for_report(kind: &[u8]) -> bool {
    matches!(kind, b"report" | b"component")
}

// A session takes records.
fn take_all(alloc: Global, session: &mut Session, rows: &Rows) -> Result<(), AllocError> {
    for row in rows.iter() {
        take_record(alloc, session, row)?;
    }
    Ok(())
}

// What a record adds to the output of a session.
fn added_by(alloc: Global, session: &mut Session, row: &Row) -> Result<Vec<u8>, AllocError> {
    Ok(take_record(alloc, session, row)?.added)
}

// A session takes a record; appends whether it was refused, and which studies the session keeps.
fn try_record(
    alloc: Global,
    session: &mut Session,
    record: &Row,
    text: &mut Vec<u8>,
) -> Result<(), AllocError> {
    let answer = take_record(alloc, session, record)?;
    tell_kept(text, session, answer.refused)
}

fn word_of(field: &[u8]) -> Word {
    match field {
        b"case" => Word::Case,
        b"rounds" => Word::Rounds,
        b"try" => Word::Try,
        b"study" => Word::Study,
        b"classes" => Word::Classes,
        _ => Word::Record,
    }
}

// What the studies are asked for.
fn asked(eliminates: bool) -> Options
    ensures { AreOptions result }
{
    Options {
        gap: 10,
        sweeps: 5_000,
        tests: eliminates,
        eliminate: if eliminates { 3 } else { 0 },
    }
}

// The place of the period of a name.
fn place_of(book: &Book, name: &[u8]) -> Option<u32>
    ensures { IfSome result (λ place. place < length (periods_of book.now)) }
{
    let place = book.period_of(&Name::read(name)?)?;
    if place < book.periods() {
        Some(place)
    } else {
        None
    }
}

// Whether a study of the period at a place is kept.
fn is_kept(session: &Session, place: u32) -> bool
    requires { place < length (periods_of session.now.state.rows) }
    ensures { IsTrue result ↔ Contains session.now.kept place }
{
    session.kept(place).is_some()
}

// Whether the record was refused, and the names of the kept periods in their order of declaration.
fn tell_kept(text: &mut Vec<u8>, session: &Session, refused: bool) -> Result<(), AllocError> {
    if refused {
        append_word(text, b"refused")?;
    }
    for place in 0..session.book().periods() {
        if is_kept(session, place) {
            append_word(text, session.book().period(place).name.bytes())?;
        }
    }
    append_word(text, b":")
}

fn class_word(class: Class) -> &'static [u8] {
    match class {
        Class::Observable => b"observable",
        Class::Unobservable => b"unobservable",
        Class::Redundant => b"redundant",
        Class::Nonredundant => b"nonredundant",
    }
}
