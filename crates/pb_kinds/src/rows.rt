// What a record asks for, and what a stored row does.

use pb_facts::{Assay, Change, Fact};
use pb_rows::{Name, Reason};
use pb_site::Declared;

/// A stored row: the number of its record in the session, counted from 1, and what it does.
#[derive(Clone, Copy)]
pub struct StoredRow {
    pub at: u32,
    pub effect: Effect,
}

/// What a stored row does.
#[derive(Clone, Copy)]
pub enum Effect {
    /// A unit, a boundary, a tank, a point of a tank's table, a stream, a critical value or version 2 of the session is declared.
    Declares(Declared),
    /// A period begins to exist, from its first day to its last, both included, as days since 1970-01-01.
    Opens {
        name: Name,
        first: i32,
        last: i32,
    },
    /// A reading, a transfer or a dip is booked. A late one may touch a closed period.
    Books {
        fact: Fact,
        late: bool,
    },
    /// The live fact of this id gets new values or no longer counts, for this reason.
    Edits {
        id: Name,
        edit: Edit,
        reason: Reason,
    },
    /// The period of this name is closed.
    Closes(Name),
    /// The grade of a component in a stream over a period is known.
    Assays(Assay),
}

/// What becomes of a fact: it gets new values, or it no longer counts.
#[derive(Clone, Copy)]
pub enum Edit {
    Change(Change),
    Strike,
}

/// What a record asks for.
#[derive(Clone, Copy)]
pub enum Request {
    /// Nothing: all its fields are empty.
    Blank,
    Store(Effect),
    /// The classes of the declared plant.
    Design,
    /// The report of the period of this name.
    Report(Name),
    /// The history of the period of this name.
    History(Name),
    /// The cheapest metering of the declared plant, at the costs that the record names.
    Advise,
    /// The report of consecutive periods at once, from the period of the first name to the period of the second.
    Window(Name, Name),
    /// The balance of the component of the first name over the period of the second.
    Component(Name, Name),
}
