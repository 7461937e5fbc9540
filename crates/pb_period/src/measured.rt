// What meters read and what tanks held.

ghost use Rattle.std.specs.Prelude.{◌≡◌, find, IfSome, Some};
ghost use Rattle.pb_limits.specs.Limits.{most_days_of_period};
ghost use Rattle.pb_site.specs.Service.{day_of_opening, first_served, last_served};
ghost use Rattle.pb_facts.specs.Fact.{IsFactInRange, is_dip_on, is_reading_on};
ghost use Rattle.pb_facts.specs.Facts.{live_facts};
ghost use Rattle.pb_periods.specs.Windows.{days_between};
ghost use Rattle.pb_period.specs.Amounts.{IsAmount};
ghost use Rattle.pb_period.specs.Days.{AreDays};
ghost use Rattle.pb_period.specs.Facts.{content_of, read_amount, read_on};
ghost use Rattle.pb_period.specs.Measurement.{change_of, closing_less_opening, read_total};
ghost use Rattle.pb_period.specs.WindowGraph.{held_at};

use crate::amount::Amount;
use crate::days::Days;
use pb_facts::{Fact, Facts};
use pb_rows::Name;
use pb_site::{Service, closing_day, first_served, last_served, opening_day};
use pb_strap::Strap;

// The live reading of a stream on a day.
fn reading_on(facts: &Facts, stream: &Name, day: i32) -> Option<Fact>
    ensures found { result ≡ find (is_reading_on stream.now day) (live_facts facts.now) }
    ensures in_range { IfSome result IsFactInRange }
{
    facts.live(facts.reading_on(stream, day)?)
}

// The live dip of a tank at the end of a day.
fn dip_on(facts: &Facts, tank: &Name, day: i32) -> Option<Fact>
    ensures found { result ≡ find (is_dip_on tank.now day) (live_facts facts.now) }
    ensures in_range { IfSome result IsFactInRange }
{
    facts.live(facts.dip_on(tank, day)?)
}

// The amount of a reading.
fn read_amount(fact: &Fact) -> Option<Amount>
    requires { IsFactInRange fact.now }
    ensures value { result ≡ read_amount fact.now }
    ensures within { IfSome result (IsAmount 1) }
{
    match fact {
        Fact::Reading {
            grams,
            variance,
            ..
        } => Some(Amount {
            grams: i128::from(*grams),
            variance: *variance,
        }),
        _ => None,
    }
}

// What a stream's meter read on a day.
fn read_on(facts: &Facts, stream: &Name, day: i32) -> Option<Amount>
    ensures value { result ≡ read_on (live_facts facts.now) stream.now day }
    ensures within { IfSome result (IsAmount 1) }
{
    read_amount(&reading_on(facts, stream, day)?)
}

/// The total of what a stream's meter read on those of some days on which the stream is in service; `None` iff one of these days
/// has no reading.
pub fn read_total(
    facts: &Facts,
    stream: &Name,
    days: Days,
    service: Option<Service>,
) -> Option<Amount>
    requires { AreDays days }
    ensures value { result ≡ read_total (read_on (live_facts facts.now) stream.now)
        (days_between (first_served service days.first) (last_served service days.last)) }
    ensures within { IfSome result (IsAmount most_days_of_period) }
{
    let first = first_served(service, days.first);
    let last = last_served(service, days.last);
    let mut total = Amount::zero();
    for day in first..last + 1 {
        total = total.plus(read_on(facts, stream, day)?);
    }
    Some(total)
}

// What a tank holds according to a dip.
fn content_of(strap: &Strap, dip: &Fact) -> Amount
    requires { IsFactInRange dip.now }
    ensures value { result ≡ content_of strap.now dip.now }
    ensures within { IsAmount 1 result }
{
    match dip {
        Fact::Dip {
            mm,
            density,
            variance,
            ..
        } => Amount {
            grams: i128::from(strap.grams(*mm, *density).unwrap_or(0)),
            variance: *variance,
        },
        _ => Amount::zero(),
    }
}

/// What a tank holds at the end of a day; `None` iff it has no dip on this day.
pub fn held_at(facts: &Facts, strap: &Strap, tank: &Name, day: i32) -> Option<Amount>
    ensures value { result ≡ held_at (live_facts facts.now) tank.now day strap.now }
    ensures within { IfSome result (IsAmount 1) }
{
    let dip = dip_on(facts, tank, day)?;
    Some(content_of(strap, &dip))
}

/// The change of a tank's content over those of some days on which it is in service; `None` iff it has no dip on the last of these
/// days or on the day before the first.
pub fn change(
    facts: &Facts,
    strap: &Strap,
    tank: &Name,
    days: Days,
    service: Option<Service>,
) -> Option<Amount>
    requires { AreDays days }
    ensures value { result ≡ change_of (content_of strap.now)
        (find (is_dip_on tank.now (day_of_opening service days.first)) (live_facts facts.now))
        (find (is_dip_on tank.now (last_served service days.last)) (live_facts facts.now)) }
    ensures within { IfSome result (IsAmount 2) }
{
    let opening = dip_on(facts, tank, opening_day(service, days.first))?;
    let closing = dip_on(facts, tank, closing_day(service, days.last))?;
    Some(difference(content_of(strap, &opening), content_of(strap, &closing)))
}

// The closing content less the opening content.
fn difference(opening: Amount, closing: Amount) -> Amount
    requires opening { IsAmount 1 opening }
    requires closing { IsAmount 1 closing }
    ensures value { result ≡ closing_less_opening opening closing }
    ensures within { IsAmount 2 result }
{
    Amount {
        grams: closing.grams - opening.grams,
        variance: opening.variance + closing.variance,
    }
}
