// Values from outside that no session shows: the places of facts, names that a stream and a tank share, and shares.

ghost use Rattle.std.specs.Prelude.{IfSome};
ghost use Rattle.pb_facts.specs.Fact.{IsFactInRange};

use pb_facts::{Fact, FactFault, Facts, share};
use pb_rows::Name;
use std::alloc::Global;
use std::test::Fail;

fn reading(id: &[u8], stream: &[u8]) -> Option<Fact>
    ensures { IfSome result IsFactInRange }
{
    Some(Fact::Reading {
        id: Name::read(id)?,
        stream: Name::read(stream)?,
        day: 19782,
        grams: 5,
        variance: 1,
    })
}

fn reading_after(id: &[u8], stream: &[u8]) -> Option<Fact>
    ensures { IfSome result IsFactInRange }
{
    Some(Fact::Reading {
        id: Name::read(id)?,
        stream: Name::read(stream)?,
        day: 19783,
        grams: 5,
        variance: 1,
    })
}

fn dip(id: &[u8], tank: &[u8]) -> Option<Fact>
    ensures { IfSome result IsFactInRange }
{
    Some(Fact::Dip {
        id: Name::read(id)?,
        tank: Name::read(tank)?,
        day: 19782,
        mm: 4,
        density: 1_000_000,
        variance: 0,
    })
}

fn transfer(id: &[u8], stream: &[u8]) -> Option<Fact>
    ensures { IfSome result IsFactInRange }
{
    Some(Fact::Transfer {
        id: Name::read(id)?,
        stream: Name::read(stream)?,
        first: 19752,
        last: 19754,
        grams: 5,
        variance: 1,
    })
}

// Adds a fact that has no fault.
fn add(facts: &mut Facts, fact: Option<Fact>) -> Result<(), Fail>
    requires { IfSome fact IsFactInRange }
{
    let fact = fact.ok_or("a name")?;
    if facts.judge(&fact).is_some() {
        return Err("a fault")?;
    }
    facts.add(fact)?;
    Ok(())
}

// Adds a reading of the stream A, a dip of the tank K and a transfer of the stream T.
fn add_three(facts: &mut Facts) -> Result<(), Fail> {
    add(facts, reading(b"r1", b"A"))?;
    add(facts, dip(b"p1", b"K"))?;
    add(facts, transfer(b"t1", b"T"))
}

// The places of the live fact of an id, and of the reading and the dip of one name on the day 19782.
type Places = (Option<u32>, Option<u32>, Option<u32>);

fn places(facts: &Facts, id: &[u8], name: &[u8]) -> Option<Places> {
    let id = Name::read(id)?;
    let name = Name::read(name)?;
    Some((
        facts.find(&id),
        facts.reading_on(&name, 19782),
        facts.dip_on(&name, 19782),
    ))
}

// The places by the ids r1, t1 and t2, and by the names A, K and T.
fn all_places(facts: &Facts) -> [Option<Places>; 3] {
    [
        places(facts, b"r1", b"A"),
        places(facts, b"t1", b"K"),
        places(facts, b"t2", b"T"),
    ]
}

// What is wrong with a fact; `None` if there is no fact.
fn fault(facts: &Facts, fact: Option<Fact>) -> Option<Option<FactFault>> {
    Some(facts.judge(&fact?))
}

// Strikes the reading r1, and adds one of its stream and day: the struck one's place, the place of the new one and the number of facts.
fn replace(facts: &mut Facts) -> Result<(Option<u32>, Option<u32>, u32), Fail> {
    let id = Name::read(b"r1").ok_or("a name")?;
    if facts.find(&id).is_none() {
        return Err("no such fact")?;
    }
    facts.strike(&id);
    add(facts, reading(b"r2", b"A"))?;
    let stream = Name::read(b"A").ok_or("a name")?;
    Ok((
        facts.place_of(&id),
        facts.reading_on(&stream, 19782),
        facts.len(),
    ))
}

// The places of three facts, what is wrong with a reading by the tank's name and a dip by the stream's, and what is said of a fact in
// the place of a struck one.
type Told = (
    [Option<Places>; 3],
    [Option<Option<FactFault>>; 2],
    (Option<u32>, Option<u32>, u32),
);

fn ask(facts: &mut Facts) -> Result<Told, Fail> {
    add_three(facts)?;
    let places = all_places(facts);
    let faults = [
        fault(facts, reading(b"r2", b"K")),
        fault(facts, dip(b"p2", b"A")),
    ];
    Ok((places, faults, replace(facts)?))
}

fn told(alloc: Global) -> Result<Told, Fail> {
    let mut facts = Facts::new(alloc);
    ask(&mut facts)
}

#[test]
fn says_where_facts_are(rt: HostRuntime) -> Result<(), Fail> {
    let (places, faults, replaced) = told(rt.alloc())?;
    assert_eq!(rt;
        places,
        [
            Some((Some(0), Some(0), None)),
            Some((Some(2), None, Some(1))),
            Some((None, None, None)),
        ],
        "the places"
    );
    assert_eq!(rt; faults, [Some(None), Some(None)], "names that are shared");
    assert_eq!(rt; replaced, (Some(0), Some(3), 4), "a struck fact");
    Ok(())
}

#[test]
fn shares_of_three_days(rt: HostRuntime) {
    let table = [
        ((10, 3, 0, 1), 3),
        ((10, 3, 1, 2), 3),
        ((10, 3, 2, 3), 4),
        ((-1, 2, 0, 1), -1),
        ((-1, 2, 1, 2), 0),
    ];
    for ((total, days, before, until), part) in table {
        assert_eq!(rt;
            share(total, days, before, until),
            part,
            "{total} {before} {until}"
        );
    }
}

// Whether a fact is booked.
fn is_booked(facts: &mut Facts, fact: Option<Fact>) -> Result<bool, Fail>
    requires { IfSome fact IsFactInRange }
{
    let fact = fact.ok_or("a name")?;
    Ok(facts.book(&fact)?)
}

// Whether readings are booked that have the id, the day or neither of an earlier one, and a dip and a transfer after them.
fn book_each(facts: &mut Facts) -> Result<[bool; 8], Fail> {
    Ok([
        is_booked(facts, reading(b"r1", b"A"))?,
        is_booked(facts, reading(b"r1", b"B"))?,
        is_booked(facts, reading(b"r2", b"A"))?,
        is_booked(facts, reading_after(b"r1", b"A"))?,
        is_booked(facts, reading_after(b"r2", b"A"))?,
        is_booked(facts, reading_after(b"r3", b"A"))?,
        is_booked(facts, dip(b"p1", b"A"))?,
        is_booked(facts, transfer(b"p1", b"T"))?,
    ])
}

fn booked(alloc: Global) -> Result<([bool; 8], u32), Fail> {
    let mut facts = Facts::new(alloc);
    let each = book_each(&mut facts)?;
    Ok((each, facts.len()))
}

#[test]
fn books_facts(rt: HostRuntime) -> Result<(), Fail> {
    let (each, count) = booked(rt.alloc())?;
    assert_eq!(rt;
        each,
        [true, false, false, false, true, false, true, false],
        "each fact"
    );
    assert_eq!(rt; count, 3, "how many");
    Ok(())
}
