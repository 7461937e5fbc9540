// Where the stored rows of a book are kept.

use pb_kinds::Edit;
use pb_rows::{Name, Reason};

/// Where a stored row is kept: the number of its record, and its place in a part of the book. Each row has one, so it is short.
#[derive(Clone, Copy)]
pub struct Place {
    pub at: u32,
    pub part: Part,
}

/// A part of the book, and a place in it: what the row does, and where that is kept. A fact is kept among the facts, whether late
/// or not, and the place of a closing is that of its period.
#[derive(Clone, Copy)]
pub enum Part {
    Declared(u32),
    Opened(u32),
    Booked { place: u32, late: bool },
    Edited(u32),
    Closed(u32),
    Assayed(u32),
}

/// An edit of a fact, as it is kept.
#[derive(Clone, Copy)]
pub struct Edited {
    pub id: Name,
    pub edit: Edit,
    pub reason: Reason,
}
