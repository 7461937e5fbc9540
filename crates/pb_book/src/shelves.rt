// What the stored rows do, according to where they are kept.

ghost use Rattle.std.specs.Prelude.{◌≡◌, All, IfSome};
ghost use Rattle.pb_site.specs.Row.{IsDeclaredInRange};
ghost use Rattle.pb_kinds.specs.Ranges.{IsEffectInRange};
ghost use Rattle.pb_book.specs.Kept.{effect_in, row_at, settled_in, shelves_of, told_at};

use crate::originals::told_at;
use crate::rows::{Edited, Part, Place};
use pb_facts::{Assays, Fact, Facts};
use pb_kinds::{Effect, StoredRow};
use pb_periods::Periods;
use pb_site::Declared;
use std::collections::HashMap;

// The stored row at a place; `None` iff there is none.
pub(crate) fn row_at(
    declared: &[Declared],
    facts: &Facts,
    originals: &HashMap<u32, Fact>,
    periods: &Periods,
    edited: &[Edited],
    assays: &Assays,
    place: &Place,
) -> Option<StoredRow>
    requires { All IsDeclaredInRange declared.now }
    ensures { result ≡ row_at
        (shelves_of declared.now (told_at facts.now originals.now) periods.now edited.now
        assays.now)
        place.now }
{
    match effect_in(
        declared, facts, originals, periods, edited, assays, place.part,
    ) {
        Some(effect) => Some(StoredRow {
            at: place.at,
            effect,
        }),
        None => None,
    }
}

// What the row at a place of a part does; `None` iff there is none.
fn effect_in(
    declared: &[Declared],
    facts: &Facts,
    originals: &HashMap<u32, Fact>,
    periods: &Periods,
    edited: &[Edited],
    assays: &Assays,
    part: Part,
) -> Option<Effect>
    requires { All IsDeclaredInRange declared.now }
    ensures { result ≡ effect_in
        (shelves_of declared.now (told_at facts.now originals.now) periods.now edited.now
        assays.now) part }
{
    match part {
        Part::Declared(_) | Part::Opened(_) | Part::Assayed(_) => {
            settled_in(declared, periods, assays, part)
        }
        Part::Booked { place, late } => match told_at(facts, originals, place) {
            Some(fact) => Some(Effect::Books { fact, late }),
            None => None,
        },
        Part::Edited(i) => match edited.get(i as usize) {
            Some(edited) => Some(Effect::Edits {
                id: edited.id,
                edit: edited.edit,
                reason: edited.reason,
            }),
            None => None,
        },
        Part::Closed(i) => {
            if i < periods.len() {
                Some(Effect::Closes(periods.at(i).name))
            } else {
                None
            }
        }
    }
}

// The same if the row declares something or a period, or gives an assay; `None` if it does something else.
pub(crate) fn settled_in(
    declared: &[Declared],
    periods: &Periods,
    assays: &Assays,
    part: Part,
) -> Option<Effect>
    requires { All IsDeclaredInRange declared.now }
    ensures value { result ≡ settled_in declared.now periods.now assays.now part }
    ensures in_range { IfSome result IsEffectInRange }
{
    match part {
        Part::Declared(i) => match declared.get(i as usize) {
            Some(declared) => Some(Effect::Declares(*declared)),
            None => None,
        },
        Part::Opened(i) => {
            if i < periods.len() {
                let period = periods.at(i);
                Some(Effect::Opens {
                    name: period.name,
                    first: period.first,
                    last: period.last,
                })
            } else {
                None
            }
        }
        Part::Assayed(i) => {
            if i < assays.len() {
                Some(Effect::Assays(assays.at(i)))
            } else {
                None
            }
        }
        _ => None,
    }
}
