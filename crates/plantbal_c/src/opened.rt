// A session, how many records it has taken, and the output that C hasn't taken yet.
ghost use Rattle.std.specs.Prelude.{◌≡◌, [], IfOk, IfErr, OnErr};
ghost use Rattle.pb_study.specs.Options.{AreOptions};
ghost use Rattle.pb_session.specs.Session.{new_session};
ghost use Rattle.plantbal_c.specs.Block.{TakesOne, most_records};

use pb_book::Book;
use pb_report::Form;
use pb_rows::Row;
use pb_session::Session;
use pb_study::Options;
use std::alloc::{AllocError, Global};
use std::marker::Model;

/// A session, how many records it has taken, and the output that C hasn't taken yet.
#[derive(Drop)]
pub struct OpenSession {
    session: Session,
    taken: u32,
    text: Vec<u8>,
}

impl Model for OpenSession {
    ghost use Rattle.plantbal_c.specs.Opened.{Opened};

    ghost Value = { Opened };

    ghost view = { λ a. record {
      state = a.session.state;
      taken = a.taken;
      text = a.text.items;
    } };
}

/// Why a record wasn't taken.
#[derive(Clone, Copy)]
pub(crate) enum NotTaken {
    /// The session has taken as many records as can be numbered.
    TooMany,
    NoMemory,
}

impl From<AllocError> for NotTaken {
    ghost use Rattle.plantbal_c.specs.declared.opened.NotTaken.TheVariants.{NoMemory};

    ghost from_gives = { λ _ why. why ≡ NoMemory };

    fn from(_: AllocError) -> NotTaken {
        NotTaken::NoMemory
    }
}

impl OpenSession {
    /// A session that has taken no record.
    pub(crate) fn new(alloc: Global, options: Options, form: Form) -> OpenSession
        requires { AreOptions options }
        ensures state { result.state ≡ new_session options form }
        ensures taken { result.taken ≡ 0 }
        ensures text { result.text ≡ [] }
    {
        OpenSession {
            session: Session::new(alloc, options, form),
            taken: 0,
            text: Vec::new(alloc),
        }
    }

    /// The same with an output that C hasn't taken yet.
    pub(crate) fn with_text(
        alloc: Global,
        options: Options,
        form: Form,
        text: Vec<u8>,
    ) -> OpenSession
        requires { AreOptions options }
        ensures state { result.state ≡ new_session options form }
        ensures taken { result.taken ≡ 0 }
        ensures text { result.text ≡ text.items }
    {
        OpenSession {
            session: Session::new(alloc, options, form),
            taken: 0,
            text,
        }
    }

    /// Takes a record. Returns the number of the cause if it is refused, otherwise 0. After an `Err` the session is as it was.
    pub(crate) fn take(&mut self, row: &Row) -> Result<u8, NotTaken>
        ensures ok { IfOk result (λ code. TakesOne self.old self.new row.now code) }
        ensures err { OnErr result (self.new ≡ self.old) }
        ensures many { IfErr result
            (λ why. why ≡ NotTaken.TooMany → self.old.taken ≡ most_records) }
    {
        let Some(at) = self.taken.checked_add(1) else {
            return Err(NotTaken::TooMany);
        };
        match self.session.row(at, row, &mut self.text) {
            Ok(Some(cause)) => {
                self.taken = at;
                Ok(cause.code() as u8)
            }
            Ok(None) => {
                self.taken = at;
                Ok(0)
            }
            Err(_) => Err(NotTaken::NoMemory),
        }
    }

    /// The book of the rows that it has stored.
    pub(crate) fn book(&self) -> &Book
        ensures { result.now ≡ self.now.state.rows }
    {
        self.session.book()
    }

    /// The output that C hasn't taken yet.
    pub(crate) fn text(&self) -> &[u8]
        ensures { result.now ≡ self.now.text }
    {
        self.text.as_slice()
    }

    /// Drops that output.
    pub(crate) fn clear(&mut self)
        ensures text { self.new.text ≡ [] }
        ensures state { self.new.state ≡ self.old.state }
        ensures taken { self.new.taken ≡ self.old.taken }
    {
        self.text.clear();
    }
}
