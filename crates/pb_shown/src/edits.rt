// The edits of a book: periods closed, facts booked late, changed or struck.
ghost use Rattle.std.specs.Prelude.{◌≡◌, ◌≤◌, ◌<◌, length, slice_get, IsSomeAnd, IfSome, MatchOption, None, ◌⊎◌};
ghost use Rattle.pb_book.specs.Edits.{edits_of, touches_at};
ghost use Rattle.pb_book.specs.Rows.{periods_of};
ghost use Rattle.pb_shown.specs.Edits.{ShowsChange, ShowsEdit, ShowsFactValues};

use crate::numbers::{PlantbalWide, wide_of};
use crate::texts::{no_name, no_reason, padded_name, padded_reason};
use pb_book::Book;
use pb_facts::{Change, Fact};
use pb_kinds::{Edit, Effect, StoredRow};

/// An edit of the book.
#[repr(C)]
#[derive(Clone, Copy)]
pub struct PlantbalEdit {
    /// The name of the period that is closed, or the id of the fact, with zeros after it.
    pub id: [u8; 33],
    /// Why a fact was changed or struck, with zeros after it; else zeros.
    pub reason: [u8; 81],
    /// 0 for a period closed, 1 for a fact booked late, 2 for one changed, 3 for one struck.
    pub kind: u8,
    /// The number of the record, counted from 1.
    pub record: u32,
    /// The grams that a fact has from then on, or the level of a dip in millimetres; 0 for a period and a fact that is struck.
    pub amount: i64,
    /// The density of a dip in grams per cubic metre, otherwise 0.
    pub density: i64,
    /// The variance in squared grams; 0 for a period and a fact that is struck.
    pub variance: PlantbalWide,
}

/// The edit at a place, in the order of the records; `None` iff there is none.
pub fn edit_at(book: &Book, place: u64) -> Option<PlantbalEdit>
    ensures { MatchOption result (length (edits_of book.now) ≤ place)
        (λ shown. IsSomeAnd (slice_get (edits_of book.now) place)
        (λ edit. ShowsEdit edit shown)) }
{
    match book.edit(place as usize) {
        Some(edit) => Some(shown_edit(&edit)),
        None => None,
    }
}

// An edit as C has it.
fn shown_edit(edit: &StoredRow) -> PlantbalEdit
    ensures { ShowsEdit edit.now result }
{
    let mut shown = PlantbalEdit {
        id: no_name(),
        reason: no_reason(),
        kind: 0,
        record: edit.at,
        amount: 0,
        density: 0,
        variance: wide_of(0),
    };
    match &edit.effect {
        Effect::Closes(name) => shown.id = padded_name(name),
        Effect::Books { fact, .. } => {
            shown.kind = 1;
            shown.id = padded_name(&fact.id());
            let (amount, density, variance) = values_of(fact);
            shown.amount = amount;
            shown.density = density;
            shown.variance = variance;
        }
        Effect::Edits { id, edit, reason } => {
            shown.id = padded_name(id);
            shown.reason = padded_reason(reason);
            match edit {
                Edit::Change(change) => {
                    shown.kind = 2;
                    let (amount, density, variance) = new_values(change);
                    shown.amount = amount;
                    shown.density = density;
                    shown.variance = variance;
                }
                Edit::Strike => shown.kind = 3,
            }
        }
        _ => {}
    }
    shown
}

// The amount, the density and the variance of a fact.
fn values_of(fact: &Fact) -> (i64, i64, PlantbalWide)
    ensures { ShowsFactValues fact.now result.0 result.1 result.2 }
{
    match fact {
        Fact::Reading {
            grams,
            variance,
            ..
        } => (*grams, 0, wide_of(*variance)),
        Fact::Transfer {
            grams,
            variance,
            ..
        } => (*grams, 0, wide_of(*variance)),
        Fact::Dip {
            mm,
            density,
            variance,
            ..
        } => (*mm, *density, wide_of(*variance)),
    }
}

// The same of a change.
fn new_values(change: &Change) -> (i64, i64, PlantbalWide)
    ensures { ShowsChange change.now result.0 result.1 result.2 }
{
    match change {
        Change::Amount { grams, variance } => (*grams, 0, wide_of(*variance)),
        Change::Level {
            mm,
            density,
            variance,
        } => (*mm, *density, wide_of(*variance)),
    }
}

/// Whether the edit at one place touches the period at another; `None` iff one of them isn't there.
pub fn edit_touches(book: &Book, edit: u64, period: u32) -> Option<bool>
    ensures none { result ≡ None
        → (length (edits_of book.now) ≤ edit) ⊎ (length (periods_of book.now) ≤ period) }
    ensures value { IfSome result (λ touches. touches ≡ touches_at book.now edit period) }
    ensures within { IfSome result (λ touches. edit < length (edits_of book.now)) }
    ensures there { IfSome result (λ touches. period < length (periods_of book.now)) }
{
    if book.edits() as u64 <= edit || book.periods() <= period {
        return None;
    }
    Some(book.touches(edit as usize, period))
}
