// Which periods a fact touches.

ghost use Rattle.std.specs.Prelude.{◌≡◌};
ghost use Rattle.pb_site.specs.Site.{service_in, version_of};
ghost use Rattle.pb_facts.specs.Fact.{named_by};
ghost use Rattle.pb_periods.specs.Apart.{shares_a_day};
ghost use Rattle.pb_periods.specs.Ranges.{IsPeriod};
ghost use Rattle.pb_periods.specs.Touching.{dip_touches, is_boundary_of, touches_in, touches_period};

use crate::period::Period;
use pb_facts::Fact;
use pb_site::{Service, Site, closing_day, is_in_service_within, opening_day};

/// Whether a fact touches a period, in a session of the version that the plant states.
pub fn touches_in(site: &Site, fact: &Fact, period: &Period) -> bool
    requires { IsPeriod period.now }
    ensures { result ≡ touches_in (version_of site.now) site.now fact.now period.now }
{
    touches(service_of(site, fact), fact, period)
}

/// The days on which the stream or tank that a fact names is in service; `None` in version 1, if its row has no such days, or if there
/// is no stream or tank of this name.
pub fn service_of(site: &Site, fact: &Fact) -> Option<Service>
    ensures { result ≡ service_in (version_of site.now) site.now (named_by fact.now) }
{
    match fact {
        Fact::Reading { stream, .. } => site.service_of(stream),
        Fact::Transfer { stream, .. } => site.service_of(stream),
        Fact::Dip { tank, .. } => site.service_of(tank),
    }
}

// Whether a fact of something that is in service on these days touches a period: a reading if the period includes its day, a
// transfer if the two have a day in common, and a dip if it gives the opening or closing content of its tank there.
fn touches(service: Option<Service>, fact: &Fact, period: &Period) -> bool
    requires { IsPeriod period.now }
    ensures { result ≡ touches_period service fact.now period.now }
{
    match fact {
        Fact::Reading { day, .. } => shares_a_day(*day, *day, period),
        Fact::Transfer { first, last, .. } => shares_a_day(*first, *last, period),
        Fact::Dip { day, .. } => dip_touches(service, *day, period),
    }
}

// Whether a period has a day from `first` to `last`.
pub(crate) fn shares_a_day(first: i32, last: i32, period: &Period) -> bool
    ensures { result ≡ shares_a_day first last period.now }
{
    first <= period.last && period.first <= last
}

// Whether a dip of a tank that is in service on these days touches a period.
pub(crate) fn dip_touches(service: Option<Service>, day: i32, period: &Period) -> bool
    requires { IsPeriod period.now }
    ensures { result ≡ dip_touches service day period.now }
{
    is_in_service_within(service, period.first, period.last) && is_boundary_of(service, day, period)
}

// Whether the content of a tank at the end of a day is its opening or closing content in a period.
fn is_boundary_of(service: Option<Service>, day: i32, period: &Period) -> bool
    requires { IsPeriod period.now }
    ensures { result ≡ is_boundary_of service day period.now }
{
    day == closing_day(service, period.last) || day == opening_day(service, period.first)
}
