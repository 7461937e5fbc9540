// The days on which a stream or a tank is in service.

ghost use Rattle.std.specs.Prelude.{◌≡◌};
ghost use Rattle.pb_rows.specs.Date.{IsDay};
ghost use Rattle.pb_site.specs.Service.{day_of_opening, first_served, is_eve, is_in_service_throughout, is_in_service_within, is_reversed, last_served};

use crate::declared::Service;

/// Whether the last day in service comes before the first.
pub fn is_reversed(service: Option<Service>) -> bool
    ensures { result ≡ is_reversed service }
{
    match service {
        None => false,
        Some(service) => service.until < service.since,
    }
}

/// Whether a stream or tank is in service on a day.
pub fn is_in_service_on(service: Option<Service>, day: i32) -> bool
    ensures { result ≡ is_in_service_within service day day }
{
    match service {
        None => true,
        Some(service) => service.since <= day && day <= service.until,
    }
}

/// Whether it is in service on each day from `first` to `last`.
pub fn is_in_service_throughout(service: Option<Service>, first: i32, last: i32) -> bool
    ensures { result ≡ is_in_service_throughout service first last }
{
    match service {
        None => true,
        Some(service) => service.since <= first && last <= service.until,
    }
}

/// Whether it is in service on some day from `first` to `last`, which isn't before `first`.
pub fn is_in_service_within(service: Option<Service>, first: i32, last: i32) -> bool
    ensures { result ≡ is_in_service_within service first last }
{
    match service {
        None => true,
        Some(service) => service.since <= last && first <= service.until,
    }
}

/// Whether this is the day before the first in service.
pub fn is_eve(service: Option<Service>, day: i32) -> bool
    ensures { result ≡ is_eve service day }
{
    match service {
        None => false,
        Some(service) => day < service.since && service.since - 1 == day,
    }
}

/// The first day in service from `first` on.
pub fn first_served(service: Option<Service>, first: i32) -> i32
    ensures { result ≡ first_served service first }
{
    match service {
        None => first,
        Some(service) => first.max(service.since),
    }
}

/// The last day in service up to `last`.
pub fn last_served(service: Option<Service>, last: i32) -> i32
    ensures { result ≡ last_served service last }
{
    match service {
        None => last,
        Some(service) => last.min(service.until),
    }
}

/// The day at whose end a tank has its opening content: the day before the first in service from `first` on.
pub fn opening_day(service: Option<Service>, first: i32) -> i32
    requires { IsDay first }
    ensures { result ≡ day_of_opening service first }
{
    first_served(service, first) - 1
}

/// The day at whose end a tank has its closing content: the last day in service up to `last`.
pub fn closing_day(service: Option<Service>, last: i32) -> i32
    ensures { result ≡ last_served service last }
{
    last_served(service, last)
}
