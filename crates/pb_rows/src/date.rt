// Civil dates as fields write them.

ghost use Rattle.std.specs.Prelude.{◌≡◌, ◌+◌, ◌<◌, ◌≤◌, pos, length, Ok, IfOk, IfSome};
ghost use Rattle.pb_rows.specs.Date.{IsDay, day_number, day_of, two_digits_at};
ghost use Rattle.pb_rows.specs.Forms.{is_dashed};

use jiff::civil::Date;
use std::alloc::AllocError;

/// The first year of the dates that fields write.
const FIRST_YEAR: u16 = 1900;

/// The last year of the dates that fields write.
const LAST_YEAR: u16 = 2199;

/// The day that a field writes, counted from 1970-01-01: exactly `YYYY-MM-DD`, a date of the Gregorian calendar
/// from 1900 to 2199. `Ok(None)` exactly when it isn't such a date; no memory is taken.
pub fn read_date(field: &[u8]) -> Result<Option<i32>, AllocError>
    ensures value { result ≡ Ok (day_of field.now) }
    ensures within { IfOk result (λ day. IfSome day IsDay) }
{
    Ok(day_of(field))
}

fn day_of(field: &[u8]) -> Option<i32>
    ensures value { result ≡ day_of field.now }
    ensures within { IfSome result IsDay }
{
    if !is_dashed(field) {
        return None;
    }
    let century = two_digits_at(field, 0)?;
    let year = two_digits_at(field, 2)?;
    let month = two_digits_at(field, 5)?;
    let day = two_digits_at(field, 8)?;
    day_number(u16::from(century) * 100 + u16::from(year), month, day)
}

// Whether a field has the length and the dashes of a date.
fn is_dashed(field: &[u8]) -> bool
    ensures { result ≡ is_dashed field.now }
{
    field.len() == 10 && field[4] == b'-' && field[7] == b'-'
}

// The number that the two digits at a place write.
fn two_digits_at(field: &[u8], i: usize) -> Option<u8>
    requires { i + 1 < length field.now }
    ensures value { result ≡ two_digits_at field.now i }
    ensures small { IfSome result (λ n. n ≤ 99) }
{
    if field[i].is_ascii_digit() && field[i + 1].is_ascii_digit() {
        Some((field[i] - b'0') * 10 + (field[i + 1] - b'0'))
    } else {
        None
    }
}

// The day number of a date that the calendar has, from 1900 to 2199.
fn day_number(year: u16, month: u8, day: u8) -> Option<i32>
    requires month { month ≤ 99 }
    requires day { day ≤ 99 }
    ensures { result ≡ day_number (pos year) (pos month) (pos day) }
{
    if !(FIRST_YEAR..=LAST_YEAR).contains(&year) {
        return None;
    }
    match Date::new(year as i16, month as i8, day as i8) {
        Ok(date) => Some(date.to_plain().to_unix_epoch_day()),
        Err(_) => None,
    }
}
