// What stands at a place of a row's values.

ghost use Rattle.std.specs.Prelude.{◌≡◌, [], pos, unsigned_abs, unwrap_or};
ghost use Rattle.pb_limits.specs.Limits.{most_freedom};
ghost use Rattle.pb_form.specs.Values.{number_at, reason_in, value_at};
ghost use Rattle.pb_kinds.specs.Requests.{day_there, name_there};
ghost use Rattle.pb_kinds.specs.There.{IsLongThere, IsNameThere, IsNumberThere, IsReasonThere};

use pb_form::Values;
use pb_rows::{Name, Reason};

// A name.
#[inline(always)]
pub(crate) fn name_there(values: &Values, place: usize) -> Name
    requires { IsNameThere values.now place }
    ensures { result ≡ name_there values.now place }
{
    values.name(place).unwrap()
}

// A reason.
pub(crate) fn reason_there(values: &Values, place: usize) -> Reason
    requires { IsReasonThere values.now place }
    ensures { result ≡ unwrap_or (value_at reason_in values.now place) [] }
{
    values.reason(place).unwrap()
}

// A day, counted from 1970-01-01.
#[inline(always)]
pub(crate) fn day_there(values: &Values, place: usize) -> i32
    ensures { result ≡ day_there values.now place }
{
    values.day(place).unwrap_or(0)
}

// A whole number.
#[inline(always)]
pub(crate) fn number_there(values: &Values, place: usize) -> i128
    ensures { result ≡ number_at values.now place }
{
    values.number(place).unwrap_or(0)
}

// A whole number of 64 bits.
#[inline(always)]
pub(crate) fn long_there(values: &Values, place: usize) -> i64
    requires { IsLongThere values.now place }
    ensures { result ≡ number_at values.now place }
{
    number_there(values, place) as i64
}

// Degrees of freedom.
pub(crate) fn dof_there(values: &Values, place: usize) -> u32
    requires { IsNumberThere (pos 1) (pos most_freedom) values.now place }
    ensures { result ≡ unsigned_abs (number_at values.now place) }
{
    number_there(values, place) as u32
}
