// The periods of a book.
ghost use Rattle.std.specs.Prelude.{◌≡◌, ◌≤◌, length, slice_get, IsSomeAnd, MatchOption};
ghost use Rattle.pb_book.specs.Rows.{periods_of};
ghost use Rattle.pb_shown.specs.Periods.{ShowsPeriod};

use crate::texts::padded_name;
use pb_book::Book;

/// A period.
#[repr(C)]
#[derive(Clone, Copy)]
pub struct PlantbalPeriod {
    /// Its name, with zeros after it.
    pub name: [u8; 33],
    /// Whether it is closed.
    pub closed: bool,
    /// Its first day, counted from 1970-01-01.
    pub first: i32,
    /// Its last day.
    pub last: i32,
}

/// The period at a place; `None` iff there is none.
pub fn period_at(book: &Book, place: u32) -> Option<PlantbalPeriod>
    ensures { MatchOption result (length (periods_of book.now) ≤ place)
        (λ shown. IsSomeAnd (slice_get (periods_of book.now) place)
        (λ period. ShowsPeriod period shown)) }
{
    if book.periods() <= place {
        return None;
    }
    let period = book.period(place);
    Some(PlantbalPeriod {
        name: padded_name(&period.name),
        closed: period.closed,
        first: period.first,
        last: period.last,
    })
}
