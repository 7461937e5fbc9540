// Facts, by the values of their rows.

ghost use Rattle.std.specs.Prelude.{◌≡◌, ◌≤◌, drop, neg_ℤ, pos, true, IfSome};
ghost use Rattle.pb_limits.specs.Limits.{most_grams};
ghost use Rattle.pb_rows.specs.Date.{IsDay, day_of};
ghost use Rattle.pb_rows.specs.Number.{number, within};
ghost use Rattle.pb_form.specs.SessionRows.{dip_columns, reading_columns, session_schema, transfer_columns};
ghost use Rattle.pb_form.specs.Telling.{is_of};
ghost use Rattle.pb_form.specs.Writing.{FitEach};
ghost use Rattle.pb_form.specs.declared.session.SessionKind.TheVariants as kinds;
ghost use Rattle.pb_kinds.specs.Requests.{dip_from, reading_from, transfer_from};
ghost use Rattle.pb_kinds.specs.There.{IsReadingIn};

use crate::there::{day_there, long_there, name_there, number_there};
use pb_facts::Fact;
use pb_form::{Fields, Values};
use pb_limits::{MOST_GRAMS, MOST_ROW_VARIANCE};
use pb_rows::{Name, read_date, read_whole};

// The reading that the fields of its row say, if none of them has a fault: each is read once.
pub(crate) fn reading_in(fields: &Fields) -> Option<Fact>
    requires { is_of fields.now (session_schema kinds.Reading) ≡ true }
    ensures { IfSome result (IsReadingIn fields.now) }
{
    Some(Fact::Reading {
        id: Name::read(fields.at(1))?,
        stream: Name::read(fields.at(2))?,
        day: read_day(fields.at(3))?,
        grams: read_grams(fields.at(4))?,
        variance: read_whole(fields.at(5), 0, MOST_ROW_VARIANCE)?,
    })
}

// The day that a field writes.
fn read_day(field: &[u8]) -> Option<i32>
    ensures value { result ≡ day_of field.now }
    ensures within { IfSome result IsDay }
{
    match read_date(field) {
        Ok(day) => day,
        Err(_) => None,
    }
}

// The grams that a field writes, in either direction.
fn read_grams(field: &[u8]) -> Option<i64>
    ensures { result ≡ within (neg_ℤ (pos most_grams)) (pos most_grams) (number field.now) }
{
    let grams = read_whole(field, -(MOST_GRAMS as i128), MOST_GRAMS as i128)?;
    Some(grams as i64)
}

// `ID,STREAM,DATE,GRAMS,VARIANCE` from a place on.
#[inline(always)]
pub(crate) fn reading_from(values: &Values, at: usize) -> Fact
    requires near { at ≤ 2 }
    requires fit { FitEach reading_columns (drop at values.now) }
    ensures { result ≡ reading_from values.now at }
{
    Fact::Reading {
        id: name_there(values, at),
        stream: name_there(values, at + 1),
        day: day_there(values, at + 2),
        grams: long_there(values, at + 3),
        variance: number_there(values, at + 4),
    }
}

// `ID,STREAM,FIRST,LAST,GRAMS,VARIANCE` from a place on.
pub(crate) fn transfer_from(values: &Values, at: usize) -> Fact
    requires near { at ≤ 2 }
    requires fit { FitEach transfer_columns (drop at values.now) }
    ensures { result ≡ transfer_from values.now at }
{
    Fact::Transfer {
        id: name_there(values, at),
        stream: name_there(values, at + 1),
        first: day_there(values, at + 2),
        last: day_there(values, at + 3),
        grams: long_there(values, at + 4),
        variance: number_there(values, at + 5),
    }
}

// `ID,TANK,DATE,MM,DENSITY,VARIANCE` from a place on.
pub(crate) fn dip_from(values: &Values, at: usize) -> Fact
    requires near { at ≤ 2 }
    requires fit { FitEach dip_columns (drop at values.now) }
    ensures { result ≡ dip_from values.now at }
{
    Fact::Dip {
        id: name_there(values, at),
        tank: name_there(values, at + 1),
        day: day_there(values, at + 2),
        mm: long_there(values, at + 3),
        density: long_there(values, at + 4),
        variance: number_there(values, at + 5),
    }
}
