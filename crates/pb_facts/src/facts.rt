// The facts of a plant, in the order in which they were added.

ghost use Rattle.std.specs.Prelude.{◌≡◌, ◌≢◌, ◌<◌, ◌≤◌, ◌-ℤ◌, ◌<ℤ◌, ◌∷◌, ◌++◌, [], pos, length, All, IfOk, IfSome, IsSome, None, Ok, is_none, true, OnOk, OnErr, find, position, slice_get, option_and_then, false, IsTrue, ◌↔◌};
ghost use Rattle.std.specs.List.{list_any};
ghost use Rattle.pb_limits.specs.Limits.{most_days_of_period, most_facts};
ghost use Rattle.pb_facts.specs.Changes.{IsChangeInRange, amend_fault_of, amended, struck};
ghost use Rattle.pb_facts.specs.Fact.{IsFactInRange, is_dip_on, is_reading_on, is_too_long};
ghost use Rattle.pb_facts.specs.Places.{IsKept, IsKeyOf};
ghost use Rattle.pb_facts.specs.Facts.{HoldsTransfers, NoRepeats, fact_fault_of, has_id, is_duplicate_fact, is_live_dip_on, is_live_reading_on, is_repeat_by_day, live_at, live_facts, live_place_of, place_of_id};

use crate::fact::{Change, Fact, FactFault};
use crate::places::{Places, block_of};
use crate::shelf::Shelf;
use pb_limits::MOST_FACTS;
use pb_rows::Name;
use std::alloc::{AllocError, Global};
use std::collections::HashMap;
use std::marker::Model;

/// A fact as it is kept: with its last values, and whether it was struck.
#[derive(Clone, Copy)]
pub struct KeptFact {
    pub fact: Fact,
    pub struck: bool,
}

/// The facts of a plant, in the order in which they were added. They are looked up by id, and by stream or tank and days.
#[derive(Drop)]
pub struct Facts {
    alloc: Global,
    shelf: Shelf,
    places: Places,
}

impl Model for Facts {
    ghost use Rattle.std.specs.Prelude.{List};
    ghost use Rattle.pb_facts.specs.declared.facts.KeptFact.{KeptFact};
    ghost use Rattle.pb_facts.specs.Places.{IsKept};

    ghost Value = { List KeptFact };

    ghost view = { λ a. a.shelf.facts };

    ghost invariant = { λ a. IsKept a.shelf.facts a.shelf.names a.places };
}

impl Facts {
    /// No facts yet.
    pub fn new(alloc: Global) -> Facts
        ensures { result ≡ [] }
    {
        Facts {
            alloc,
            shelf: Shelf::new(alloc),
            places: Places {
                readings: HashMap::new(alloc),
                dips: HashMap::new(alloc),
                transfers: HashMap::new(alloc),
            },
        }
    }

    /// The first fault of a new fact, among Duplicate, Order, Range and Full: its id was added before, struck or not, or a live
    /// reading or dip has its stream or tank and day; a transfer's first day comes after its last; a transfer has more than 366
    /// days; as many facts as there may be were added. `None` exactly when there is none.
    pub fn judge(&self, fact: &Fact) -> Option<FactFault>
        ensures { result ≡ fact_fault_of self.now fact.now }
    {
        if self.repeats(fact) {
            Some(FactFault::Duplicate)
        } else if fact.is_out_of_order() {
            Some(FactFault::Order)
        } else if fact.is_too_long() {
            Some(FactFault::Range)
        } else if self.shelf.len() as usize >= MOST_FACTS {
            Some(FactFault::Full)
        } else {
            None
        }
    }

    /// Adds a fact that has no fault. After an `Err`, out of memory, the facts are as they were.
    pub fn add(&mut self, fact: Fact) -> Result<(), AllocError>
        requires in_range { IsFactInRange fact }
        requires no_fault { fact_fault_of self.old fact ≡ None }
        ensures added { OnOk result (self.new
            ≡ self.old ++ record { fact = fact; struck = false } ∷ []) }
        ensures unchanged { OnErr result (self.new ≡ self.old) }
    {
        self.places.reserve(self.alloc, &fact)?;
        let place = self.shelf.len();
        let number = self.shelf.push(&fact)?;
        self.places.note(&fact, number, place);
        Ok(())
    }

    /// Adds a fact unless it has a fault, and returns whether it was added. If it wasn't, and after an `Err`, out of memory, the
    /// facts are as they were.
    pub fn book(&mut self, fact: &Fact) -> Result<bool, AllocError>
        requires { IsFactInRange fact.now }
        ensures fault { IfOk result (λ added. added ≡ is_none (fact_fault_of self.old fact.now)) }
        ensures added { result ≡ Ok true → self.new
            ≡ self.old ++ record { fact = fact.now; struck = false } ∷ [] }
        ensures unchanged { result ≢ Ok true → self.new ≡ self.old }
    {
        match key_of(&self.shelf, fact) {
            Some(key) => book_reading(self.alloc, &mut self.shelf, &mut self.places, fact, key),
            None => self.judge_and_add(fact),
        }
    }

    // The same in two steps, with more look-ups.
    fn judge_and_add(&mut self, fact: &Fact) -> Result<bool, AllocError>
        requires { IsFactInRange fact.now }
        ensures fault { IfOk result (λ added. added ≡ is_none (fact_fault_of self.old fact.now)) }
        ensures added { result ≡ Ok true → self.new
            ≡ self.old ++ record { fact = fact.now; struck = false } ∷ [] }
        ensures unchanged { result ≢ Ok true → self.new ≡ self.old }
    {
        if self.judge(fact).is_some() {
            return Ok(false);
        }
        self.add(*fact)?;
        Ok(true)
    }

    /// The first fault of an amendment, among Unknown and Mismatch: no live fact has the id; the change is a level and the fact isn't
    /// a dip, or the change is an amount and the fact is a dip. `None` exactly when there is none.
    pub fn judge_amend(&self, id: &Name, change: &Change) -> Option<FactFault>
        ensures { result ≡ amend_fault_of self.now id.now change.now }
    {
        match self.find(id) {
            None => Some(FactFault::Unknown),
            Some(place) => {
                if change.fits(&self.shelf.at(place).fact) {
                    None
                } else {
                    Some(FactFault::Mismatch)
                }
            }
        }
    }

    /// Gives the live fact that has the id new values, by a change that has no fault. Its stream or tank and its days stay the same.
    pub fn amend(&mut self, id: &Name, change: Change)
        requires in_range { IsChangeInRange change }
        requires no_fault { amend_fault_of self.old id.now change ≡ None }
        ensures { self.new ≡ amended id.now change self.old }
    {
        if let Some(place) = self.find(id) {
            self.shelf.change(place, change);
        }
    }

    /// Strikes the live fact that has the id. The id stays in use, and the fact can still be looked up by its place.
    pub fn strike(&mut self, id: &Name)
        requires { IsSome (live_place_of id.now self.old) }
        ensures { self.new ≡ struck id.now self.old }
    {
        if let Some(place) = self.find(id) {
            let fact = self.shelf.at(place).fact;
            let number = self.shelf.number_of(&fact.stream_or_tank());
            self.places.forget(&fact, number);
            self.shelf.strike(place);
        }
    }

    /// The number of facts added, including struck ones.
    pub fn len(&self) -> u32
        ensures value { result ≡ length self.now }
        ensures within { length self.now ≤ most_facts }
    {
        self.shelf.len()
    }

    /// Whether no fact was added.
    pub fn is_empty(&self) -> bool
        ensures { IsTrue result ↔ (self.now ≡ []) }
    {
        self.shelf.len() == 0
    }

    /// The fact at a place, counted from 0 in the order of adding, with its last values, and whether it was struck.
    pub fn kept(&self, place: u32) -> KeptFact
        requires { place < length self.now }
        ensures value { slice_get self.now place ≡ Some result }
        ensures in_range { IsFactInRange result.fact }
        ensures short { is_too_long result.fact ≡ false }
    {
        self.shelf.at(place)
    }

    /// The fact at a place, counted from 0 in the order of adding, with its last values; `None` exactly when it was struck.
    pub fn live(&self, place: u32) -> Option<Fact>
        requires { place < length self.now }
        ensures value { result ≡ live_at self.now place }
        ensures in_range { IfSome result IsFactInRange }
        ensures short { IfSome result (λ fact. is_too_long fact ≡ false) }
    {
        let kept = self.kept(place);
        if kept.struck { None } else { Some(kept.fact) }
    }

    /// The place of the live fact that has the id; `None` exactly when there is none. No fact repeats an earlier one.
    pub fn find(&self, id: &Name) -> Option<u32>
        ensures value { result ≡ live_place_of id.now self.now }
        ensures within { IfSome result (λ place. place < length self.now) }
        ensures no_repeats { NoRepeats self.now }
    {
        let place = self.shelf.place_of(id)?;
        if self.shelf.is_struck(place) {
            None
        } else {
            Some(place)
        }
    }

    /// The place of the fact that has the id, struck or not; `None` exactly when there is none.
    pub fn place_of(&self, id: &Name) -> Option<u32>
        ensures { result ≡ place_of_id id.now self.now }
    {
        self.shelf.place_of(id)
    }

    /// The place of the live reading of a stream on a day; `None` exactly when there is none.
    pub fn reading_on(&self, stream: &Name, day: i32) -> Option<u32>
        ensures value { result ≡ position (is_live_reading_on stream.now day) self.now }
        ensures found { option_and_then (live_at self.now) result
            ≡ find (is_reading_on stream.now day) (live_facts self.now) }
    {
        let number = self.shelf.number_of(stream)?;
        self.places.readings.get(&(number, day)).copied()
    }

    /// The place of the live dip of a tank at the end of a day; `None` exactly when there is none.
    pub fn dip_on(&self, tank: &Name, day: i32) -> Option<u32>
        ensures value { result ≡ position (is_live_dip_on tank.now day) self.now }
        ensures found { option_and_then (live_at self.now) result
            ≡ find (is_dip_on tank.now day) (live_facts self.now) }
    {
        self.places.dips.get(&(*tank, day)).copied()
    }

    /// Places of transfers, in the order of adding: they include all transfers of the stream that have a day from `first` to
    /// `last`, and none that begins long before or after these days.
    pub fn transfers_within(&self, stream: &Name, first: i32, last: i32) -> &[u32]
        requires { (last -ℤ first) <ℤ pos most_days_of_period }
        ensures transfers { HoldsTransfers self.now stream.now first last result.now }
        ensures places { All (λ place. place < length self.now) result.now }
        ensures within { length result.now ≤ most_facts }
    {
        match self.places.transfers.get(&(*stream, block_of(last))) {
            Some(places) => places,
            None => &[],
        }
    }

    /// Whether a fact's id was used before, or a live fact has the same stream or tank and day.
    pub fn repeats(&self, fact: &Fact) -> bool
        ensures { result ≡ is_duplicate_fact self.now fact.now }
    {
        self.has_id(&fact.id()) || self.has_day_of(fact)
    }

    // Whether a fact with the id was added, struck or not.
    fn has_id(&self, id: &Name) -> bool
        ensures { result ≡ list_any (has_id id.now) self.now }
    {
        self.place_of(id).is_some()
    }

    // Whether a live fact has the same stream or tank and day.
    fn has_day_of(&self, fact: &Fact) -> bool
        ensures { result ≡ list_any (is_repeat_by_day fact.now) self.now }
    {
        match fact {
            Fact::Reading { stream, day, .. } => self.reading_on(stream, *day).is_some(),
            Fact::Dip { tank, day, .. } => self.dip_on(tank, *day).is_some(),
            Fact::Transfer { .. } => false,
        }
    }
}

// The number of the name of a reading's stream, and the reading's day; `None` if no fact on the shelf has the name, or if there is no
// room for another fact. `None` for other facts.
fn key_of(shelf: &Shelf, fact: &Fact) -> Option<(u32, i32)>
    ensures key { IfSome result (λ key. IsKeyOf shelf.now.names key fact.now) }
    ensures room { IfSome result (λ key. length shelf.now.facts < most_facts) }
{
    match fact {
        Fact::Reading { stream, day, .. } if (shelf.len() as usize) < MOST_FACTS => {
            Some((shelf.number_of(stream)?, *day))
        }
        _ => None,
    }
}

// Adds a reading by the number of its stream's name and its day, unless it has a fault, and returns whether it was added.
fn book_reading(
    alloc: Global,
    shelf: &mut Shelf,
    places: &mut Places,
    reading: &Fact,
    key: (u32, i32),
) -> Result<bool, AllocError>
    requires kept { IsKept shelf.old.facts shelf.old.names places.old }
    requires key { IsKeyOf shelf.old.names key reading.now }
    requires room { length shelf.old.facts < most_facts }
    requires in_range { IsFactInRange reading.now }
    ensures kept { IsKept shelf.new.facts shelf.new.names places.new }
    ensures fault { IfOk result
        (λ added. added ≡ is_none (fact_fault_of shelf.old.facts reading.now)) }
    ensures added { result ≡ Ok true → shelf.new.facts
        ≡ shelf.old.facts ++ record { fact = reading.now; struck = false } ∷ [] }
    ensures unchanged { result ≢ Ok true → shelf.new.facts ≡ shelf.old.facts }
{
    if places.readings.contains_key(&key) {
        return Ok(false);
    }
    places.reserve(alloc, reading)?;
    let place = shelf.len();
    if !shelf.push_new(reading, key.0)? {
        return Ok(false);
    }
    places.note(reading, key.0, place);
    Ok(true)
}
