// Values from outside that no session shows: what a site says of its rows as a whole, and days in service.

ghost use Rattle.std.specs.Prelude.{IfSome};
ghost use Rattle.pb_site.specs.Row.{IsDeclaredInRange};
ghost use Rattle.pb_site.specs.Service.{IsService};

use pb_rows::Name;
use pb_site::{
    Declared, Service, Site, SiteFault, Version, closing_day, first_served, is_eve,
    is_in_service_on, is_in_service_throughout, is_in_service_within, last_served, opening_day,
};
use std::alloc::Global;
use std::test::Fail;

// The row of a version, and then those of a tank with two points.
fn row(place: u8) -> Option<Declared>
    ensures { IfSome result IsDeclaredInRange }
{
    let tank = Name::read(b"K")?;
    Some(match place {
        0 => Declared::Version2,
        1 => Declared::Tank {
            name: tank,
            base: 9,
            service: None,
        },
        2 => Declared::Strap { tank, mm: 0, ml: 0 },
        _ => Declared::Strap {
            tank,
            mm: 10,
            ml: 1_000,
        },
    })
}

// Adds a declaration that has no fault.
fn add(site: &mut Site, row: Option<Declared>) -> Result<(), Fail>
    requires { IfSome row IsDeclaredInRange }
{
    let row = row.ok_or("a name")?;
    if site.judge(&row).is_some() {
        return Err("a fault")?;
    }
    site.add(row)?;
    Ok(())
}

fn add_rows(site: &mut Site, first: u8, end: u8) -> Result<(), Fail> {
    for place in first..end {
        add(site, row(place))?;
    }
    Ok(())
}

// The number of declarations, whether there is none, the version, and what is wrong with the row of a version.
fn ask(site: &Site) -> (usize, bool, Version, Option<SiteFault>) {
    (
        site.len(),
        site.is_empty(),
        site.version(),
        site.judge(&Declared::Version2),
    )
}

// What a site of the rows from one place up to another says.
fn told(
    alloc: Global,
    first: u8,
    end: u8,
) -> Result<(usize, bool, Version, Option<SiteFault>), Fail> {
    let mut site = Site::new(alloc);
    add_rows(&mut site, first, end)?;
    Ok(ask(&site))
}

#[test]
fn says_the_version_first(rt: HostRuntime) -> Result<(), Fail> {
    let duplicate = Some(SiteFault::Duplicate);
    for (first, end, want) in [
        (0, 0, (0, true, Version::One, None)),
        (0, 1, (1, false, Version::Two, duplicate)),
        (1, 4, (3, false, Version::One, duplicate)),
        (0, 4, (4, false, Version::Two, duplicate)),
    ] {
        assert_eq!(rt;
            told(rt.alloc(), first, end)?,
            want,
            "the rows {first} to {end}"
        );
    }
    Ok(())
}

fn days(since: u8, until: u8) -> Service
    ensures { IsService result }
{
    Service {
        since: i32::from(since),
        until: i32::from(until),
    }
}

// Whether the service has a day, and whether the day is the one before it.
fn on(service: Option<Service>, day: u8) -> (bool, bool) {
    let day = i32::from(day);
    (is_in_service_on(service, day), is_eve(service, day))
}

#[test]
fn days_in_service(rt: HostRuntime) -> Result<(), Fail> {
    let some = Some(days(3, 6));
    let table = [
        (None, 5, (true, false)),
        (some, 1, (false, false)),
        (some, 2, (false, true)),
        (some, 3, (true, false)),
        (some, 6, (true, false)),
        (some, 7, (false, false)),
    ];
    for (service, day, want) in table {
        assert_eq!(rt; on(service, day), want, "the day {day}");
    }
    Ok(())
}

// For some days: whether the service has all of them and any of them, the first and the last that it has, and the days at whose end a
// tank's content opens and closes.
fn over(service: Option<Service>, first: u8, last: u8) -> ((bool, bool), (i32, i32), (i32, i32)) {
    let first = i32::from(first);
    let last = i32::from(last);
    (
        (
            is_in_service_throughout(service, first, last),
            is_in_service_within(service, first, last),
        ),
        (first_served(service, first), last_served(service, last)),
        (opening_day(service, first), closing_day(service, last)),
    )
}

#[test]
fn spans_in_service(rt: HostRuntime) -> Result<(), Fail> {
    let some = Some(days(3, 6));
    let table = [
        (None, 1, 9, ((true, true), (1, 9), (0, 9))),
        (some, 3, 6, ((true, true), (3, 6), (2, 6))),
        (some, 1, 3, ((false, true), (3, 3), (2, 3))),
        (some, 5, 9, ((false, true), (5, 6), (4, 6))),
        (some, 1, 9, ((false, true), (3, 6), (2, 6))),
        (some, 7, 9, ((false, false), (7, 6), (6, 6))),
        (some, 1, 2, ((false, false), (3, 2), (2, 2))),
    ];
    for (service, first, last, want) in table {
        assert_eq!(rt; over(service, first, last), want, "from {first} to {last}");
    }
    Ok(())
}
