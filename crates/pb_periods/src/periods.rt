// The periods of a book.

ghost use Rattle.std.specs.Prelude.{◌≡◌, ◌<◌, ◌≤◌, ◌∷◌, ◌++◌, [], All, length, map, false, true, Some, OnOk, OnErr, position, slice_get};
ghost use Rattle.std.specs.List.{list_any};
ghost use Rattle.indexmap.specs.IndexSet as set;
ghost use Rattle.pb_limits.specs.Limits.{most_periods};
ghost use Rattle.pb_rows.specs.Date.{IsDay};
ghost use Rattle.pb_site.specs.Row.{names_include};
ghost use Rattle.pb_periods.specs.Apart.{AreApart, is_named, shares_a_day};
ghost use Rattle.pb_periods.specs.Kept.{FindsLast, HasBegin, SameBegins};
ghost use Rattle.pb_periods.specs.Ranges.{IsPeriod};
ghost use Rattle.pb_periods.specs.Closing.{closed_if_named, is_closed_named, is_unserved_in};
ghost use Rattle.pb_periods.specs.Touching.{dip_touches_closed, dip_touches_closed_on, has_closed_day, is_closed_in_service, some_closed, some_closed_with, touches_period};
ghost use Rattle.pb_periods.specs.Windows.{begins_on};
ghost use Rattle.pb_facts.specs.Fact.{IsFactInRange};

use crate::period::Period;
use crate::touching::dip_touches;
use indexmap::IndexSet;
use pb_facts::Fact;
use pb_rows::Name;
use pb_site::{Service, is_in_service_within};
use std::alloc::{AllocError, Global};
use std::collections::BTreeMap;
use std::marker::Model;

/// The periods in the order of declaration. They are looked up by name and by day, and the closed ones by day as well.
#[derive(Drop)]
pub struct Periods {
    periods: Vec<Period>,
    names: IndexSet<Name>,
    begins: BTreeMap<i32, u32>,
    closes: BTreeMap<i32, u32>,
    sealed: bool,
}

impl Model for Periods {
    ghost use Rattle.std.specs.Prelude.{List};
    ghost use Rattle.pb_periods.specs.declared.period.Period.{Period};
    ghost use Rattle.pb_periods.specs.Kept.{ArePeriods};

    ghost Value = { List Period };

    ghost view = { λ a. a.periods.items };

    ghost invariant = { λ a. ArePeriods a.periods.items a.names.keys a.begins a.closes a.sealed };
}

impl Periods {
    /// An empty list of periods.
    pub fn new(alloc: Global) -> Periods
        ensures { result ≡ [] }
    {
        Periods {
            periods: Vec::new(alloc),
            names: IndexSet::new(alloc),
            begins: BTreeMap::new(alloc),
            closes: BTreeMap::new(alloc),
            sealed: false,
        }
    }

    /// The number of periods. No two share a name or a day.
    pub fn len(&self) -> u32
        ensures value { result ≡ length self.now }
        ensures within { length self.now ≤ most_periods }
        ensures apart { AreApart self.now }
    {
        self.periods.len() as u32
    }

    /// The period at a place, counted from 0.
    pub fn at(&self, i: u32) -> Period
        requires { i < length self.now }
        ensures value { slice_get self.now i ≡ Some result }
        ensures days { IsPeriod result }
    {
        self.periods[i as usize]
    }

    /// The place of the period of a name; `None` iff there is none.
    pub fn place_of(&self, name: &Name) -> Option<u32>
        ensures { result ≡ position (is_named name.now) self.now }
    {
        match self.names.get_index_of(name) {
            Some(i) => Some(i as u32),
            None => None,
        }
    }

    /// Whether a period has the name.
    pub fn has_name(&self, name: &Name) -> bool
        ensures { result ≡ list_any (is_named name.now) self.now }
    {
        self.names.contains(name)
    }

    /// Whether some period has a day from `first` to `last`. If any has, so has the last of those that begin by `last`, since no
    /// two share a day.
    pub fn has_day_within(&self, first: i32, last: i32) -> bool
        ensures { result ≡ list_any (shares_a_day first last) self.now }
    {
        match begun_by(&self.begins, last) {
            Some(place) => first <= self.periods[place as usize].last,
            None => false,
        }
    }

    /// The place of the period that begins on a day; `None` iff none does.
    pub fn begun_on(&self, day: i32) -> Option<u32>
        ensures value { result ≡ position (begins_on day) self.now }
        ensures days { All IsPeriod self.now }
        ensures apart { AreApart self.now }
    {
        self.begins.get(&day).copied()
    }

    /// Whether some period is closed.
    pub fn some_closed(&self) -> bool
        ensures { result ≡ some_closed self.now }
    {
        self.sealed
    }

    /// Whether the period of a name is closed.
    pub fn is_closed(&self, name: &Name) -> bool
        ensures { result ≡ list_any (is_closed_named name.now) self.now }
    {
        match self.names.get_index_of(name) {
            Some(i) => self.periods[i].closed,
            None => false,
        }
    }

    /// Whether something with these days of service is never in service in the period of a name.
    pub fn is_unserved(&self, service: Option<Service>, name: &Name) -> bool
        ensures { result ≡ list_any (is_unserved_in service name.now) self.now }
    {
        match self.names.get_index_of(name) {
            Some(i) => {
                let period = self.periods[i];
                !is_in_service_within(service, period.first, period.last)
            }
            None => false,
        }
    }

    /// Whether a fact of something that is in service on these days touches a closed period.
    pub fn touches_closed(&self, service: Option<Service>, fact: &Fact) -> bool
        requires { IsFactInRange fact.now }
        ensures { result ≡ some_closed_with (touches_period service fact.now) self.now }
    {
        match fact {
            Fact::Reading { day, .. } => self.has_closed_day_within(*day, *day),
            Fact::Transfer { first, last, .. } => self.has_closed_day_within(*first, *last),
            Fact::Dip { day, .. } => self.dip_touches_closed(service, *day),
        }
    }

    /// Whether something with these days of service is in service on some day of a closed period.
    pub fn closed_in_service(&self, service: Option<Service>) -> bool
        ensures { result ≡ list_any (is_closed_in_service service) self.now }
    {
        match service {
            None => self.some_closed(),
            Some(service) => self.has_closed_day_within(service.since, service.until),
        }
    }

    // Whether some closed period has a day from `first` to `last`.
    fn has_closed_day_within(&self, first: i32, last: i32) -> bool
        ensures { result ≡ list_any (has_closed_day first last) self.now }
    {
        match begun_by(&self.closes, last) {
            Some(place) => first <= self.periods[place as usize].last,
            None => false,
        }
    }

    // Whether a dip of a tank that is in service on these days touches a closed period; such a period includes the day of the dip
    // or the next day.
    fn dip_touches_closed(&self, service: Option<Service>, day: i32) -> bool
        requires { IsDay day }
        ensures { result ≡ list_any (dip_touches_closed service day) self.now }
    {
        self.dip_touches_last(service, day, day) || self.dip_touches_last(service, day, day + 1)
    }

    // Whether the dip touches the last closed period that begins by another day. No other closed period includes that day.
    fn dip_touches_last(&self, service: Option<Service>, day: i32, by: i32) -> bool
        ensures days { All IsPeriod self.now }
        ensures only { result ≡ true
            → list_any (dip_touches_closed service day) self.now ≡ true }
        ensures each { list_any (dip_touches_closed_on service day by) self.now ≡ true
            → result ≡ true }
    {
        match begun_by(&self.closes, by) {
            Some(place) => dip_touches(service, day, &self.periods[place as usize]),
            None => false,
        }
    }

    /// Closes the period of a name, if there is one. After an `Err` (out of memory), the periods are as they were.
    pub fn close(&mut self, name: &Name) -> Result<(), AllocError>
        ensures ok { OnOk result (self.new ≡ map (closed_if_named name.now) self.old) }
        ensures err { OnErr result (self.new ≡ self.old) }
    {
        match self.names.get_index_of(name) {
            Some(i) => {
                put_begin(&mut self.closes, self.periods[i].first, i as u32)?;
                self.periods[i].closed = true;
                self.sealed = true;
                Ok(())
            }
            None => Ok(()),
        }
    }

    /// Appends an open period that shares neither its name nor a day with another one. After an `Err` (out of memory), the periods
    /// are as they were.
    pub fn push(&mut self, period: Period) -> Result<(), AllocError>
        requires days { IsPeriod period }
        requires open { period.closed ≡ false }
        requires name { list_any (is_named period.name) self.old ≡ false }
        requires apart { list_any (shares_a_day period.first period.last) self.old ≡ false }
        requires room { length self.old < most_periods }
        ensures ok { OnOk result (self.new ≡ self.old ++ period ∷ []) }
        ensures err { OnErr result (self.new ≡ self.old) }
    {
        self.periods.reserve(1)?;
        self.names.reserve(1)?;
        let place = self.periods.len() as u32;
        put_begin(&mut self.begins, period.first, place)?;
        put_name(&mut self.names, period.name);
        self.periods.push_reserved(period);
        Ok(())
    }
}

// The place of the last period that begins by a day.
fn begun_by(begins: &BTreeMap<i32, u32>, day: i32) -> Option<u32>
    ensures { FindsLast begins.now day result }
{
    match begins.range(..=day).next_back() {
        Some((_, place)) => Some(*place),
        None => None,
    }
}

// Notes the place of the period that begins on a day. After an `Err` (out of memory), the map is as it was.
fn put_begin(begins: &mut BTreeMap<i32, u32>, first: i32, place: u32) -> Result<(), AllocError>
    ensures ok { OnOk result (HasBegin begins.old begins.new first place) }
    ensures err { OnErr result (SameBegins begins.old begins.new) }
{
    match begins.insert(first, place) {
        Ok(_) => Ok(()),
        Err(_) => Err(AllocError),
    }
}

// Puts a new name, for which there is room, after the others, so it can't fail.
fn put_name(names: &mut IndexSet<Name>, name: Name)
    requires room { 0 < set.spare names.old }
    requires new { names_include names.old.keys name ≡ false }
    ensures { names.new.keys ≡ names.old.keys ++ name ∷ [] }
{
    names.insert(name).ok();
}
