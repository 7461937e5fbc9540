// The places of kept facts, so that no look-up walks through the facts.

ghost use Rattle.std.specs.Prelude.{◌≡◌, ◌<◌, ◌+◌, ◌∷◌, ◌++◌, [], ℕ, ℤ, pos, neg_ℤ, ◌+ℤ◌, ◌≤ℤ◌, ◌^◌, List, Some, None, if◌then◌else◌, IsSome, OnOk};
ghost use Rattle.std.specs.HashMap.{get, spare};
ghost use Rattle.std.specs.Prelude.{◌&&◌, ◌||◌, false};
ghost use Rattle.std.specs.Ordering.{int_eq};
ghost use Rattle.pb_rows.specs.Name.{same_name};
ghost use Rattle.pb_facts.specs.Places.{Forgets, HasRoom, HasRoomAt, Notes, SamePlaces, block_of, places_at, same_key};

use crate::fact::Fact;
use pb_rows::Name;
use std::alloc::{AllocError, Global};
use std::collections::HashMap;
use std::hash::Hash;

// As soon as this many facts are kept, room is made for that many. The table of a map has room for 9 times a power of 2.
const FEW: usize = 9 << 7;

const MANY: usize = 9 << 10;

/// The places of the kept facts: of the live readings by the number of their stream's name and the day, of the live dips by tank and
/// day, and of the transfers by stream and each block of days in which they may be looked up. Most facts are readings, so their keys
/// are short.
#[derive(Drop)]
pub struct Places {
    pub readings: HashMap<(u32, i32), u32>,
    pub dips: HashMap<(Name, i32), u32>,
    pub transfers: HashMap<(Name, i32), Vec<u32>>,
}

impl Places {
    /// Makes room for the place of a new fact, and leaves all places as they are.
    pub fn reserve(&mut self, alloc: Global, fact: &Fact) -> Result<(), AllocError>
        ensures same { SamePlaces self.old self.new }
        ensures room { OnOk result (HasRoom self.new fact.now) }
    {
        match fact {
            Fact::Reading { .. } => self.readings.reserve(more_after(self.readings.len())),
            Fact::Dip { .. } => self.dips.reserve(1),
            Fact::Transfer { stream, first, .. } => {
                make_room(alloc, &mut self.transfers, *stream, block_of(*first))
            }
        }
    }

    /// Notes the place of a new fact, by its stream or tank, whose name has this number, and its day or days.
    pub fn note(&mut self, fact: &Fact, number: u32, place: u32)
        requires { HasRoom self.old fact.now }
        ensures { Notes self.old self.new fact.now number place }
    {
        match fact {
            Fact::Reading { day, .. } => put(&mut self.readings, (number, *day), place),
            Fact::Dip { tank, day, .. } => put(&mut self.dips, (*tank, *day), place),
            Fact::Transfer { stream, first, .. } => {
                put_transfer(&mut self.transfers, *stream, block_of(*first), place)
            }
        }
    }

    /// Removes the place of a fact that is struck, by its stream or tank, whose name may have a number, and its day. A transfer keeps
    /// its place.
    pub fn forget(&mut self, fact: &Fact, number: Option<u32>)
        ensures { Forgets self.old self.new fact.now number }
    {
        match (fact, number) {
            (Fact::Reading { day, .. }, Some(number)) => take(&mut self.readings, (number, *day)),
            (Fact::Reading { .. }, None) => {}
            (Fact::Dip { tank, day, .. }, _) => take(&mut self.dips, (*tank, *day)),
            (Fact::Transfer { .. }, _) => {}
        }
    }
}

// Removes the entry at a key.
fn take<K: Eq + Hash + Drop>(map: &mut HashMap<K, u32>, key: K)
    ensures { (q : K) → get K.eq map.new q ≡ (if K.eq key q then None else get K.eq map.old q) }
{
    map.remove(&key);
}

/// For how many more facts room is made after some: for one, or for many as soon as many are likely to follow, so that the facts
/// aren't moved often.
pub fn more_after(facts: usize) -> usize
    ensures { 0 < result }
{
    if facts == FEW { MANY - FEW } else { 1 }
}

/// The block of 512 days that a day lies in.
pub fn block_of(day: i32) -> i32
    ensures value { result ≡ block_of day }
    ensures within { (neg_ℤ (pos (2 ^ 23)) ≤ℤ result) × (result ≤ℤ pos (2 ^ 23)) }
{
    day.div_euclid(512)
}

// Puts an entry for which there is room.
fn put<K: Eq + Hash + Drop, V: Drop>(map: &mut HashMap<K, V>, key: K, value: V)
    requires { 0 < spare map.old }
    ensures { (q : K) → get K.eq map.new q
        ≡ (if K.eq key q then Some value else get K.eq map.old q) }
{
    let put: Result<_, _> = map.insert(key, value);
    put.unwrap();
}

// Makes room for one more place under a stream and a block of days, and under the next block.
fn make_room(
    alloc: Global,
    transfers: &mut HashMap<(Name, i32), Vec<u32>>,
    stream: Name,
    block: i32,
) -> Result<(), AllocError>
    requires { block ≤ℤ pos (2 ^ 23) }
    ensures same { (key : List ℕ × ℤ) → places_at transfers.new key ≡ places_at transfers.old key }
    ensures here { OnOk result (HasRoomAt transfers.new (stream, block)) }
    ensures behind { OnOk result (HasRoomAt transfers.new (stream, block +ℤ pos 1)) }
{
    make_room_at(alloc, transfers, stream, block)?;
    make_room_at(alloc, transfers, stream, block + 1)?;
    Ok(())
}

// Makes room for one more place under a stream and a block of days.
fn make_room_at(
    alloc: Global,
    transfers: &mut HashMap<(Name, i32), Vec<u32>>,
    stream: Name,
    block: i32,
) -> Result<(), AllocError>
    ensures same { (q : List ℕ × ℤ) → places_at transfers.new q ≡ places_at transfers.old q }
    ensures room { OnOk result (HasRoomAt transfers.new (stream, block)) }
    ensures others { (q : List ℕ × ℤ) → HasRoomAt transfers.old q → HasRoomAt transfers.new q }
{
    add_entry(alloc, transfers, (stream, block))?;
    reserve_at(transfers, (stream, block))
}

// Adds an entry without places at a key that has no entry.
fn add_entry(
    alloc: Global,
    transfers: &mut HashMap<(Name, i32), Vec<u32>>,
    key: (Name, i32),
) -> Result<(), AllocError>
    ensures same { (q : List ℕ × ℤ) → places_at transfers.new q ≡ places_at transfers.old q }
    ensures entry { OnOk result (IsSome (get same_key transfers.new key)) }
    ensures others { (q : List ℕ × ℤ) → HasRoomAt transfers.old q → HasRoomAt transfers.new q }
{
    if transfers.contains_key(&key) {
        return Ok(());
    }
    transfers.reserve(1)?;
    put(transfers, key, Vec::new(alloc));
    Ok(())
}

// Makes room for one more place in the entry at a key.
fn reserve_at(
    transfers: &mut HashMap<(Name, i32), Vec<u32>>,
    key: (Name, i32),
) -> Result<(), AllocError>
    requires { IsSome (get same_key transfers.old key) }
    ensures same { (q : List ℕ × ℤ) → places_at transfers.new q ≡ places_at transfers.old q }
    ensures room { OnOk result (HasRoomAt transfers.new key) }
    ensures others { (q : List ℕ × ℤ) → HasRoomAt transfers.old q → HasRoomAt transfers.new q }
{
    transfers.get_mut(&key).unwrap().reserve(1)
}

// Puts the place of a transfer under its stream and a block of days, and under the next block.
fn put_transfer(
    transfers: &mut HashMap<(Name, i32), Vec<u32>>,
    stream: Name,
    block: i32,
    place: u32,
)
    requires within { block ≤ℤ pos (2 ^ 23) }
    requires here { HasRoomAt transfers.old (stream, block) }
    requires behind { HasRoomAt transfers.old (stream, block +ℤ pos 1) }
    ensures { (key : List ℕ × ℤ) → places_at transfers.new key
        ≡ places_at transfers.old key
        ++ (if same_name stream key.0 && (int_eq block key.1 || int_eq (block +ℤ pos 1) key.1)
        then place ∷ [] else []) }
{
    put_at(transfers, (stream, block), place);
    put_at(transfers, (stream, block + 1), place);
}

// Appends a place at a key at which there is room.
fn put_at(transfers: &mut HashMap<(Name, i32), Vec<u32>>, key: (Name, i32), place: u32)
    requires { HasRoomAt transfers.old key }
    ensures put { (q : List ℕ × ℤ) → places_at transfers.new q
        ≡ places_at transfers.old q ++ (if same_key key q then place ∷ [] else []) }
    ensures others { (q : List ℕ × ℤ) → same_key key q ≡ false
        → HasRoomAt transfers.old q → HasRoomAt transfers.new q }
{
    transfers.get_mut(&key).unwrap().push_reserved(place);
}
