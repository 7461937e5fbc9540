// The plain rows as records: the file as if it had been edited.

ghost use Rattle.std.specs.Prelude.{◌≡◌, ◌<◌, ◌++◌, [], All, length, map, IfOk, OnOk};
ghost use Rattle.std.specs.Option.{option_map};
ghost use Rattle.pb_site.specs.Row.{IsDeclaredInRange};
ghost use Rattle.pb_facts.specs.Facts.{live_at, live_facts};
ghost use Rattle.pb_kinds.specs.Ranges.{IsEffectInRange};
ghost use Rattle.pb_book.specs.Kept.{settled_at, settled_in};
ghost use Rattle.pb_book.specs.Plain.{booked};
ghost use Rattle.pb_book.specs.Written.{AddsRow, AddsSome, WriteRows};

use crate::rows::Place;
use crate::shelves::settled_in;
use pb_facts::{Assays, Facts};
use pb_kinds::{Effect, write_effect};
use pb_periods::Periods;
use pb_rows::Rows;
use pb_site::Declared;
use std::alloc::{AllocError, Global};

// The records of the declarations, periods and assays at these places, followed by those of the live facts.
pub(crate) fn plain_records(
    alloc: Global,
    declared: &[Declared],
    periods: &Periods,
    assays: &Assays,
    places: &[Place],
    facts: &Facts,
) -> Result<Rows, AllocError>
    requires { All IsDeclaredInRange declared.now }
    ensures { IfOk result (λ records. WriteRows records
        (settled_at declared.now periods.now assays.now places.now
        ++ map booked (live_facts facts.now))) }
{
    let mut records = settled_records(alloc, declared, periods, assays, places)?;
    for i in 0..facts.len() {
        push_live(alloc, facts, i, &mut records)?;
    }
    Ok(records)
}

// The records of the declarations, periods and assays at these places.
fn settled_records(
    alloc: Global,
    declared: &[Declared],
    periods: &Periods,
    assays: &Assays,
    places: &[Place],
) -> Result<Rows, AllocError>
    requires { All IsDeclaredInRange declared.now }
    ensures { IfOk result (λ records. WriteRows records
        (settled_at declared.now periods.now assays.now places.now)) }
{
    let mut records = Rows::new(alloc);
    for i in 0..places.len() {
        push_settled(alloc, declared, periods, assays, &places[i], &mut records)?;
    }
    Ok(records)
}

// Appends the record of the declaration, period or assay at a place, if it has one.
fn push_settled(
    alloc: Global,
    declared: &[Declared],
    periods: &Periods,
    assays: &Assays,
    place: &Place,
    records: &mut Rows,
) -> Result<(), AllocError>
    requires { All IsDeclaredInRange declared.now }
    ensures { OnOk result (AddsSome records.old records.new
        (settled_in declared.now periods.now assays.now place.now.part)) }
{
    match settled_in(declared, periods, assays, place.part) {
        Some(effect) => push_effect(alloc, &effect, records),
        None => Ok(()),
    }
}

// Appends the record of the fact at a place, if it is live.
fn push_live(alloc: Global, facts: &Facts, i: u32, records: &mut Rows) -> Result<(), AllocError>
    requires { i < length facts.now }
    ensures { OnOk result
        (AddsSome records.old records.new (option_map booked (live_at facts.now i))) }
{
    match facts.live(i) {
        Some(fact) => {
            let effect = Effect::Books { fact, late: false };
            push_effect(alloc, &effect, records)
        }
        None => Ok(()),
    }
}

// Appends the record of a row, by what it does.
fn push_effect(alloc: Global, effect: &Effect, records: &mut Rows) -> Result<(), AllocError>
    requires { IsEffectInRange effect.now }
    ensures { OnOk result (AddsRow records.old records.new effect.now) }
{
    let record = write_effect(alloc, effect)?;
    records.push(record)?;
    Ok(())
}
