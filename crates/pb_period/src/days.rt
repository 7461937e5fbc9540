// The days of a period, and of a transfer.

ghost use Rattle.std.specs.Prelude.{◌≡◌, ◌≤ℤ◌};
ghost use Rattle.std.specs.Int.{int_gap};
ghost use Rattle.pb_rows.specs.Date.{IsDay};
ghost use Rattle.pb_period.specs.Days.{day_count, days_of};

use pb_book::Period;

/// The days from `first` to `last`, both included, as days since 1970-01-01.
#[derive(Clone, Copy, Debug, PartialEq, Eq)]
pub struct Days {
    pub first: i32,
    pub last: i32,
}

impl Days {
    /// The days of a period.
    pub fn of(period: &Period) -> Days
        ensures { result ≡ days_of period.now }
    {
        Days {
            first: period.first,
            last: period.last,
        }
    }
}

/// The number of days from `first` up to `end`, which isn't counted and doesn't come before `first`.
pub fn days_until(first: i32, end: i32) -> u32
    requires order { first ≤ℤ end }
    ensures { result ≡ int_gap first end }
{
    end.abs_diff(first)
}

/// The number of days from `first` to `last`, both included; `last` doesn't come before `first`.
pub fn days_through(first: i32, last: i32) -> u32
    requires first { IsDay first }
    requires last { IsDay last }
    requires order { first ≤ℤ last }
    ensures { result ≡ day_count first last }
{
    days_until(first, last + 1)
}
