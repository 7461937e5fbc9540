// What transfers moved.

ghost use Rattle.std.specs.Prelude.{◌≡◌, ◌+◌, ◌<◌, ◌≤ℤ◌, ◌<ℤ◌, ◌-ℤ◌, pos, ℕ, length, false, IfSome, filter_map, option_and_then};
ghost use Rattle.std.specs.Int.{int_max, int_min};
ghost use Rattle.pb_rows.specs.Date.{IsDay};
ghost use Rattle.pb_limits.specs.Limits.{most_days_of_transfer, most_facts};
ghost use Rattle.pb_facts.specs.Fact.{IsFactInRange, is_too_long};
ghost use Rattle.pb_facts.specs.Facts.{live_at, live_facts};
ghost use Rattle.pb_period.specs.Amounts.{IsAmount, IsSmall, IsSpan, with_more};
ghost use Rattle.pb_period.specs.Days.{AreDays};
ghost use Rattle.pb_period.specs.Facts.{share_on, shared, total_of, transferred};

use crate::amount::Amount;
use crate::days::{Days, days_through, days_until};
use pb_facts::{Fact, Facts, share};
use pb_rows::Name;

/// What the live transfers of a stream moved on some days.
pub fn transferred(facts: &Facts, stream: &Name, days: Days) -> Amount
    requires { AreDays days }
    ensures value { result
        ≡ total_of (filter_map (transferred days stream.now) (live_facts facts.now)) }
    ensures within { IsAmount most_facts result }
{
    let places = facts.transfers_within(stream, days.first, days.last);
    let mut total = Amount::zero();
    for place in places {
        total = with_live(total, facts, *place, stream, days);
    }
    total
}

// A total, with what the fact at a place moved added, unless the fact was struck.
fn with_live(total: Amount, facts: &Facts, place: u32, stream: &Name, days: Days) -> Amount
    requires days { AreDays days }
    requires small { IsSmall total }
    requires place { place < length facts.now }
    ensures value { result ≡ with_more total
        (option_and_then (transferred days stream.now) (live_at facts.now place)) }
    ensures within { (n : ℕ) → IsAmount n total → IsAmount (n + 1) result }
{
    match facts.live(place) {
        Some(fact) => match transferred_by(&fact, stream, days) {
            Some(share) => total.plus(share),
            None => total,
        },
        None => total,
    }
}

// What a fact moved in a stream on some days.
fn transferred_by(fact: &Fact, stream: &Name, days: Days) -> Option<Amount>
    requires days { AreDays days }
    requires in_range { IsFactInRange fact.now }
    requires short { is_too_long fact.now ≡ false }
    ensures value { result ≡ transferred days stream.now fact.now }
    ensures within { IfSome result (IsAmount 1) }
{
    match fact {
        Fact::Transfer {
            stream: own,
            first,
            last,
            grams,
            variance,
            ..
        } => {
            if own != stream {
                return None;
            }
            let amount = Amount {
                grams: i128::from(*grams),
                variance: *variance,
            };
            common_share(days, *first, *last, amount)
        }
        _ => None,
    }
}

// The share of an amount, moved from day `first` to day `last`, that falls on some days.
fn common_share(days: Days, first: i32, last: i32, amount: Amount) -> Option<Amount>
    requires days { AreDays days }
    requires first { IsDay first }
    requires last { IsDay last }
    requires short { (last -ℤ first) <ℤ pos most_days_of_transfer }
    requires amount { IsAmount 1 amount }
    ensures value { result
        ≡ share_on first last amount (int_max days.first first) (int_min days.last last) }
    ensures within { IfSome result (IsAmount 1) }
{
    share_on(
        first,
        last,
        amount,
        days.first.max(first),
        days.last.min(last),
    )
}

// The share of an amount, moved from day `first` to day `last`, that falls on the days from `from` to `to`.
fn share_on(first: i32, last: i32, amount: Amount, from: i32, to: i32) -> Option<Amount>
    requires first { IsDay first }
    requires last { IsDay last }
    requires short { (last -ℤ first) <ℤ pos most_days_of_transfer }
    requires amount { IsAmount 1 amount }
    requires from { first ≤ℤ from }
    requires to { to ≤ℤ last }
    ensures value { result ≡ share_on first last amount from to }
    ensures within { IfSome result (IsAmount 1) }
{
    if to < from {
        return None;
    }
    let days = days_through(first, last);
    let before = days_until(first, from);
    let until = days_through(first, to);
    Some(share_amount(amount, days, before, until))
}

// The share of an amount, spread evenly over `days` days, that falls on those after the first `before` up to the first `until`.
fn share_amount(amount: Amount, days: u32, before: u32, until: u32) -> Amount
    requires amount { IsAmount 1 amount }
    requires span { IsSpan days before until }
    ensures value { result ≡ shared amount days before until }
    ensures within { IsAmount 1 result }
{
    Amount {
        grams: share(amount.grams, days, before, until),
        variance: share(amount.variance, days, before, until),
    }
}
