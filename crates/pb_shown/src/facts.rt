// The facts of a book, with their last values.
ghost use Rattle.std.specs.Prelude.{◌≡◌, ◌≤◌, ◌<◌, length, slice_get, IsSomeAnd, IfSome, MatchOption, None, ◌⊎◌};
ghost use Rattle.pb_book.specs.Rows.{declared_of, facts_of, periods_of};
ghost use Rattle.pb_periods.specs.Touching.{touches_in};
ghost use Rattle.pb_site.specs.Site.{version_of};
ghost use Rattle.pb_shown.specs.Facts.{ShowsFact, ShowsKept};

use crate::numbers::{PlantbalWide, wide_of};
use crate::texts::padded_name;
use pb_book::Book;
use pb_facts::Fact;
use pb_periods::touches_in;

/// A fact that was booked, with its last values.
#[repr(C)]
#[derive(Clone, Copy)]
pub struct PlantbalFact {
    /// Its id, with zeros after it.
    pub id: [u8; 33],
    /// The name of its stream or tank, with zeros after it.
    pub stream: [u8; 33],
    /// 0 for a reading, 1 for a transfer, 2 for a dip.
    pub kind: u8,
    /// Whether it was struck.
    pub struck: bool,
    /// Its day or its first day, counted from 1970-01-01.
    pub first: i32,
    /// Its day or its last day.
    pub last: i32,
    /// Grams, or the level of a dip in millimetres.
    pub amount: i64,
    /// The density of a dip in grams per cubic metre, otherwise 0.
    pub density: i64,
    /// The variance in squared grams.
    pub variance: PlantbalWide,
}

/// The fact at a place, struck or not; `None` iff there is none.
pub fn fact_at(book: &Book, place: u32) -> Option<PlantbalFact>
    ensures { MatchOption result (length (facts_of book.now) ≤ place)
        (λ shown. IsSomeAnd (slice_get (facts_of book.now) place)
        (λ kept. ShowsKept kept shown)) }
{
    let facts = book.facts();
    if facts.len() <= place {
        return None;
    }
    let kept = facts.kept(place);
    Some(shown_fact(&kept.fact, kept.struck))
}

// A fact as C has it.
fn shown_fact(fact: &Fact, struck: bool) -> PlantbalFact
    ensures fact { ShowsFact fact.now result }
    ensures struck { result.struck ≡ struck }
{
    match fact {
        Fact::Reading {
            id,
            stream,
            day,
            grams,
            variance,
        } => PlantbalFact {
            id: padded_name(id),
            stream: padded_name(stream),
            kind: 0,
            struck,
            first: *day,
            last: *day,
            amount: *grams,
            density: 0,
            variance: wide_of(*variance),
        },
        Fact::Transfer {
            id,
            stream,
            first,
            last,
            grams,
            variance,
        } => PlantbalFact {
            id: padded_name(id),
            stream: padded_name(stream),
            kind: 1,
            struck,
            first: *first,
            last: *last,
            amount: *grams,
            density: 0,
            variance: wide_of(*variance),
        },
        Fact::Dip {
            id,
            tank,
            day,
            mm,
            density,
            variance,
        } => PlantbalFact {
            id: padded_name(id),
            stream: padded_name(tank),
            kind: 2,
            struck,
            first: *day,
            last: *day,
            amount: *mm,
            density: *density,
            variance: wide_of(*variance),
        },
    }
}

/// Whether the fact at one place touches the period at another; `None` iff one of them isn't there.
pub fn fact_touches(book: &Book, fact: u32, period: u32) -> Option<bool>
    ensures none { result ≡ None
        → (length (facts_of book.now) ≤ fact) ⊎ (length (periods_of book.now) ≤ period) }
    ensures value { IfSome result (λ touches. IsSomeAnd (slice_get (facts_of book.now) fact)
        (λ kept. IsSomeAnd (slice_get (periods_of book.now) period) (λ days. touches
        ≡ touches_in (version_of (declared_of book.now)) (declared_of book.now) kept.fact days))) }
{
    let facts = book.facts();
    if facts.len() <= fact || book.periods() <= period {
        return None;
    }
    let kept = facts.kept(fact);
    Some(touches_in(book.site(), &kept.fact, &book.period(period)))
}
