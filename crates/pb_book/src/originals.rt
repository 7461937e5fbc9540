// The facts as they came: those whose values an amendment changed are kept separately, and every other fact is returned as it
// stands.

ghost use Rattle.std.specs.Prelude.{◌≡◌, ◌<◌, ℕ, nat_eq, length, Some, IsSome, OnOk, if◌then◌else◌};
ghost use Rattle.std.specs.HashMap.{get, spare};
ghost use Rattle.pb_book.specs.Kept.{HasOriginal, told_at};

use pb_facts::{Fact, Facts};
use pb_rows::Name;
use std::alloc::AllocError;
use std::collections::HashMap;

// The fact at a place as it came; `None` iff there is none.
pub(crate) fn told_at(facts: &Facts, originals: &HashMap<u32, Fact>, place: u32) -> Option<Fact>
    ensures { result ≡ told_at facts.now originals.now place }
{
    match originals.get(&place) {
        Some(fact) => Some(*fact),
        None if place < facts.len() => Some(facts.kept(place).fact),
        None => None,
    }
}

// Keeps the live fact of an id as it came, before an amendment changes its values; if one did before, it is already kept. After an
// `Err` (out of memory), the facts as they came are unchanged.
pub(crate) fn keep_original(
    facts: &Facts,
    originals: &mut HashMap<u32, Fact>,
    id: &Name,
) -> Result<(), AllocError>
    ensures told { (place : ℕ) → told_at facts.now originals.new place
        ≡ told_at facts.now originals.old place }
    ensures kept { OnOk result (HasOriginal facts.now originals.new id.now) }
{
    match facts.find(id) {
        Some(place) => keep_at(facts, originals, place),
        None => Ok(()),
    }
}

// Keeps the fact at a place as it came, unless that is already done.
fn keep_at(facts: &Facts, originals: &mut HashMap<u32, Fact>, place: u32) -> Result<(), AllocError>
    requires { place < length facts.now }
    ensures told { (q : ℕ) → told_at facts.now originals.new q ≡ told_at facts.now originals.old q }
    ensures kept { OnOk result (IsSome (get nat_eq originals.new place)) }
{
    if originals.contains_key(&place) {
        return Ok(());
    }
    originals.reserve(1)?;
    put(originals, place, facts.kept(place).fact);
    Ok(())
}

// Puts a fact for which there is room, so it can't fail.
fn put(originals: &mut HashMap<u32, Fact>, place: u32, fact: Fact)
    requires { 0 < spare originals.old }
    ensures { (q : ℕ) → get nat_eq originals.new q
        ≡ (if nat_eq place q then Some fact else get nat_eq originals.old q) }
{
    originals.insert(place, fact).ok();
}
