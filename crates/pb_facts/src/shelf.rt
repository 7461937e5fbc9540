// The facts on their shelf, in the order in which they were added: each under its id, with its stream or tank as a number.

ghost use Rattle.std.specs.Prelude.{◌≡◌, ◌≢◌, ℕ, ◌<◌, ◌≤◌, ◌∷◌, ◌++◌, [], List, length, set, not, true, false, Ok, Some, IfOk, IfSome, IsTrue, OnOk, OnErr, position, slice_get, slice_index_or};
ghost use Rattle.std.specs.List.{list_any};
ghost use Rattle.indexmap.specs.IndexSet as names_of;
ghost use Rattle.indexmap.specs.IndexMap as entries_of;
ghost use Rattle.pb_limits.specs.Limits.{most_facts};
ghost use Rattle.pb_rows.specs.Name.{same_name};
ghost use Rattle.pb_facts.specs.Changes.{changed};
ghost use Rattle.pb_facts.specs.Fact.{id_of};
ghost use Rattle.pb_facts.specs.Facts.{has_id, place_of_id};
ghost use Rattle.pb_facts.specs.Shelf.{stream_or_tank, told_fact};

use crate::fact::{Change, Fact};
use crate::facts::KeptFact;
use crate::places::more_after;
use indexmap::map::Entry as Found;
use indexmap::{IndexMap, IndexSet};
use pb_rows::Name;
use std::alloc::{AllocError, Global};
use std::marker::Model;

/// What a fact says besides its id, its stream or tank and the variance.
#[derive(Clone, Copy)]
pub enum Told {
    Reading { day: i32, grams: i64 },
    Transfer { first: i32, last: i32, grams: i64 },
    Dip { day: i32, mm: i64, density: i64 },
}

/// A fact without its id: its stream or tank is given by the number of its name.
#[derive(Clone, Copy)]
pub struct Entry {
    pub variance: i128,
    pub told: Told,
    pub name: u32,
    pub struck: bool,
}

/// The facts in the order in which they were added: each id is stored once, and so is each name of a stream or tank.
#[derive(Drop)]
pub struct Shelf {
    names: IndexSet<Name>,
    entries: IndexMap<Name, Entry>,
}

impl Model for Shelf {
    ghost use Rattle.pb_facts.specs.Shelf.{IsShelf, Shelved, kept_facts};

    ghost Value = { Shelved };

    ghost view = { λ a. record {
      facts = kept_facts a.names.keys a.entries.entries;
      names = a.names.keys;
    } };

    ghost invariant = { λ a. IsShelf a.names.keys a.entries.entries };
}

impl Shelf {
    ghost use Rattle.pb_facts.specs.declared.facts.KeptFact.{KeptFact};

    /// An empty shelf.
    pub fn new(alloc: Global) -> Shelf
        ensures { result ≡ record { facts = []; names = [] } }
    {
        Shelf {
            names: IndexSet::new(alloc),
            entries: IndexMap::new(alloc),
        }
    }

    /// The number of facts.
    pub fn len(&self) -> u32
        ensures value { result ≡ length self.now.facts }
        ensures within { length self.now.facts ≤ most_facts }
    {
        self.entries.len() as u32
    }

    /// Appends a fact with a new id, and returns the number of the name of its stream or tank. After an `Err`, out of memory, the
    /// shelf is as it was.
    pub fn push(&mut self, fact: &Fact) -> Result<u32, AllocError>
        requires room { length self.old.facts < most_facts }
        requires new { list_any (has_id (id_of fact.now)) self.old.facts ≡ false }
        ensures pushed { OnOk result (self.new.facts
            ≡ self.old.facts ++ record { fact = fact.now; struck = false } ∷ []) }
        ensures named { OnOk result (self.new.names
            ≡ names_of.insert_key same_name self.old.names (stream_or_tank fact.now)) }
        ensures number { IfOk result (λ number.
            position (same_name (stream_or_tank fact.now)) self.new.names ≡ Some number) }
        ensures unchanged { OnErr result (self.new ≡ self.old) }
    {
        self.names.reserve(1)?;
        self.entries.reserve(more_after(self.entries.len()))?;
        let name = name_number(&mut self.names, fact.stream_or_tank());
        put_entry(&mut self.entries, fact.id(), Entry::of(fact, name));
        Ok(name)
    }

    /// Appends a fact unless its id is used, given the number of the name of its stream or tank, and returns whether its id is new.
    /// After an `Err`, out of memory, the shelf is as it was.
    pub fn push_new(&mut self, fact: &Fact, number: u32) -> Result<bool, AllocError>
        requires room { length self.old.facts < most_facts }
        requires number { position (same_name (stream_or_tank fact.now)) self.old.names
            ≡ Some number }
        ensures new { IfOk result
            (λ new. list_any (has_id (id_of fact.now)) self.old.facts ≡ not new) }
        ensures pushed { result ≡ Ok true → self.new.facts
            ≡ self.old.facts ++ record { fact = fact.now; struck = false } ∷ [] }
        ensures unchanged { result ≢ Ok true → self.new.facts ≡ self.old.facts }
        ensures names { self.new.names ≡ self.old.names }
    {
        self.entries.reserve(more_after(self.entries.len()))?;
        Ok(put_new(&mut self.entries, fact.id(), Entry::of(fact, number)))
    }

    /// The fact at a place.
    pub fn at(&self, place: u32) -> KeptFact
        requires { place < length self.now.facts }
        ensures { slice_get self.now.facts place ≡ Some result }
    {
        let (id, entry) = self.entries.get_index(place as usize).unwrap();
        KeptFact {
            fact: entry.fact(*id, self.names[entry.name as usize]),
            struck: entry.struck,
        }
    }

    /// Whether the fact at a place was struck.
    pub fn is_struck(&self, place: u32) -> bool
        requires { place < length self.now.facts }
        ensures { (d : KeptFact) → result ≡ (slice_index_or self.now.facts place d).struck }
    {
        self.entries[place as usize].struck
    }

    /// Gives the fact at a place new values, if they are of its kind, and marks it as live.
    pub fn change(&mut self, place: u32, change: Change)
        requires { place < length self.old.facts }
        ensures facts { (d : KeptFact) → self.new.facts ≡ set self.old.facts place (record {
          fact = changed change (slice_index_or self.old.facts place d).fact;
          struck = false;
        }) }
        ensures names { self.new.names ≡ self.old.names }
    {
        let entry = self.entries[place as usize];
        self.entries[place as usize] = entry.changed(change);
    }

    /// Marks the fact at a place as struck.
    pub fn strike(&mut self, place: u32)
        requires { place < length self.old.facts }
        ensures facts { (d : KeptFact) → self.new.facts ≡ set self.old.facts place (record {
          fact = (slice_index_or self.old.facts place d).fact;
          struck = true;
        }) }
        ensures names { self.new.names ≡ self.old.names }
    {
        self.entries[place as usize].struck = true;
    }

    /// The place of the fact that has the id; `None` exactly when there is none.
    pub fn place_of(&self, id: &Name) -> Option<u32>
        ensures value { result ≡ place_of_id id.now self.now.facts }
        ensures within { IfSome result (λ place. place < length self.now.facts) }
    {
        match self.entries.get_index_of(id) {
            Some(place) => Some(place as u32),
            None => None,
        }
    }

    /// The number of the name of a stream or tank; `None` exactly when no fact was added that has it.
    pub fn number_of(&self, name: &Name) -> Option<u32>
        ensures { result ≡ position (same_name name.now) self.now.names }
    {
        match self.names.get_index_of(name) {
            Some(number) => Some(number as u32),
            None => None,
        }
    }
}

impl Entry {
    // The entry of a live fact whose stream or tank has the number.
    fn of(fact: &Fact, name: u32) -> Entry
        ensures told { let id = id_of fact.now in
            told_fact id (stream_or_tank fact.now) result.variance result.told ≡ fact.now }
        ensures name { result.name ≡ name }
        ensures live { result.struck ≡ false }
    {
        let (told, variance) = match *fact {
            Fact::Reading {
                day,
                grams,
                variance,
                ..
            } => (Told::Reading { day, grams }, variance),
            Fact::Transfer {
                first,
                last,
                grams,
                variance,
                ..
            } => (Told::Transfer { first, last, grams }, variance),
            Fact::Dip {
                day,
                mm,
                density,
                variance,
                ..
            } => (Told::Dip { day, mm, density }, variance),
        };
        Entry {
            variance,
            told,
            name,
            struck: false,
        }
    }

    // The fact with the id, of the stream or tank of the name.
    fn fact(&self, id: Name, name: Name) -> Fact
        ensures { result ≡ told_fact id name self.now.variance self.now.told }
    {
        let variance = self.variance;
        match self.told {
            Told::Reading { day, grams } => Fact::Reading {
                id,
                stream: name,
                day,
                grams,
                variance,
            },
            Told::Transfer { first, last, grams } => Fact::Transfer {
                id,
                stream: name,
                first,
                last,
                grams,
                variance,
            },
            Told::Dip { day, mm, density } => Fact::Dip {
                id,
                tank: name,
                day,
                mm,
                density,
                variance,
            },
        }
    }

    // The entry with its values replaced by these, if they are of its kind, and live.
    fn changed(&self, change: Change) -> Entry
        ensures told { (id : List ℕ) (name : List ℕ) → told_fact id name result.variance result.told
            ≡ changed change (told_fact id name self.now.variance self.now.told) }
        ensures name { result.name ≡ self.now.name }
        ensures live { result.struck ≡ false }
    {
        let (told, variance) = match (change, self.told) {
            (Change::Amount { grams, variance }, Told::Reading { day, .. }) => {
                (Told::Reading { day, grams }, variance)
            }
            (Change::Amount { grams, variance }, Told::Transfer { first, last, .. }) => {
                (Told::Transfer { first, last, grams }, variance)
            }
            (
                Change::Level {
                    mm,
                    density,
                    variance,
                },
                Told::Dip { day, .. },
            ) => (Told::Dip { day, mm, density }, variance),
            (_, told) => (told, self.variance),
        };
        Entry {
            variance,
            told,
            name: self.name,
            struck: false,
        }
    }
}

// The number of a name, which is appended to the others if it is new.
fn name_number(names: &mut IndexSet<Name>, name: Name) -> u32
    requires room { 0 < names_of.spare names.old }
    requires few { length names.old.keys < most_facts }
    ensures names { names.new.keys ≡ names_of.insert_key same_name names.old.keys name }
    ensures number { slice_get names.new.keys result ≡ Some name }
    ensures found { position (same_name name) names.new.keys ≡ Some result }
{
    let (number, _) = names.insert_full(name).unwrap();
    number as u32
}

// Appends an entry unless its id is used, and returns whether it is new.
fn put_new(entries: &mut IndexMap<Name, Entry>, id: Name, entry: Entry) -> bool
    requires { 0 < entries_of.spare entries.old }
    ensures new { list_any (same_name id) (entries_of.keys entries.old) ≡ not result }
    ensures put { result ≡ true → entries.new.entries
        ≡ entries_of.insert_entry same_name entries.old.entries id entry }
    ensures unchanged { result ≡ false → entries.new.entries ≡ entries.old.entries }
{
    let found: Result<_, _> = entries.entry(id);
    match found.unwrap() {
        Found::Occupied(_) => false,
        Found::Vacant(slot) => {
            slot.insert(entry);
            true
        }
    }
}

// Appends an entry with a new id.
fn put_entry(entries: &mut IndexMap<Name, Entry>, id: Name, entry: Entry)
    requires room { 0 < entries_of.spare entries.old }
    requires new { list_any (same_name id) (entries_of.keys entries.old) ≡ false }
    ensures { entries.new.entries ≡ entries.old.entries ++ (id, entry) ∷ [] }
{
    let put: Result<_, _> = entries.insert(id, entry);
    put.unwrap();
}
