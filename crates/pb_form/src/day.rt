// The text of a day, as a field writes it.

ghost use Rattle.std.specs.Prelude.{◌≡◌, ◌<◌, ◌∷◌, ◌++◌, [], All, IsUtf8, MatchOption, OnOk};
ghost use Rattle.pb_rows.specs.Date.{date_text};
ghost use Rattle.pb_form.specs.Days.{text_of_day};

use jiff_core::civil::Date;
use pb_rows::Row;
use std::alloc::AllocError;

// 1900-01-01 and 2199-12-31, counted from 1970-01-01.
const FIRST_DAY: i32 = -25_567;

const LAST_DAY: i32 = 84_005;

// Appends the text of a day, counted from 1970-01-01: an empty field if no date from 1900 to 2199 is the day's.
pub(crate) fn push_day(day: i32, row: &mut Row) -> Result<(), AllocError>
    ensures adds { OnOk result (row.new ≡ row.old ++ text_of_day day ∷ []) }
    ensures texts { OnOk result (All IsUtf8 row.old → All IsUtf8 row.new) }
{
    match day_text(day) {
        Some(text) => row.push(&text),
        None => row.push(b""),
    }
}

// The text `YYYY-MM-DD` of a day, if it has one.
fn day_text(day: i32) -> Option<[u8; 10]>
    ensures { MatchOption result (text_of_day day ≡ [])
        (λ text. (text ≡ text_of_day day) × IsUtf8 text) }
{
    if day < FIRST_DAY || LAST_DAY < day {
        return None;
    }
    match Date::from_unix_epoch_day(i64::from(day)) {
        Ok(date) => Some(text_of(date.year.unsigned_abs(), date.month, date.day)),
        Err(_) => None,
    }
}

// The digits of a year, a month and a day of the month.
fn text_of(year: u16, month: u8, day: u8) -> [u8; 10]
    requires year { year < 10_000 }
    requires month { month < 100 }
    requires day { day < 100 }
    ensures value { result ≡ date_text year month day }
    ensures text { IsUtf8 result }
{
    let century = (year / 100) as u8;
    let rest = (year % 100) as u8;
    [
        b'0' + century / 10,
        b'0' + century % 10,
        b'0' + rest / 10,
        b'0' + rest % 10,
        b'-',
        b'0' + month / 10,
        b'0' + month % 10,
        b'-',
        b'0' + day / 10,
        b'0' + day % 10,
    ]
}
