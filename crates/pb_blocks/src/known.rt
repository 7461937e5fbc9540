// Names in order, each of which is found without walking the list.

ghost use Rattle.std.specs.Prelude.{◌≡◌, ◌<◌, ◌≤◌, ◌∷◌, ◌++◌, [], false, true, length, position, IfOk, IfSome, OnErr, OnOk};
ghost use Rattle.pb_limits.specs.Limits.{most_streams};
ghost use Rattle.pb_rows.specs.Name.{is_name, same_name};
ghost use Rattle.pb_blocks.specs.Held.{AreKnown};
ghost use Rattle.pb_blocks.specs.Lists.{is_among, place_of};

use indexmap::IndexSet;
use pb_rows::{Name, NameList};
use std::alloc::{AllocError, Global};
use std::marker::Model;

/// Different names, in order: no more than a graph can have streams.
#[derive(Drop)]
pub struct Known {
    names: IndexSet<Name>,
}

impl Model for Known {
    ghost use Rattle.std.specs.Prelude.{List, ℕ};
    ghost use Rattle.pb_blocks.specs.Held.{AreKnown};

    ghost Value = { List (List ℕ) };

    ghost view = { λ a. a.names.keys };

    ghost invariant = { λ a. AreKnown a.names.keys };
}

impl Known {
    /// An empty list.
    pub fn new(alloc: Global) -> Known
        ensures { result ≡ [] }
    {
        Known {
            names: IndexSet::new(alloc),
        }
    }

    /// The number of names.
    pub fn len(&self) -> u32
        ensures value { result ≡ length self.now }
        ensures known { AreKnown self.now }
    {
        self.names.len() as u32
    }

    /// The place of the name that a text is; `None` exactly when it isn't one of the names.
    pub fn find(&self, text: &[u8]) -> Option<u32>
        ensures { result ≡ position (same_name text.now) self.now }
    {
        let names = &self.names;
        let name = Name::read(text)?;
        let place = names.get_index_of(&name)?;
        Some(place as u32)
    }

    /// The name at a place, if there is one.
    pub fn name_at(&self, place: u32) -> Option<&Name>
        ensures { IfSome result (λ name. place_of self.now name.now ≡ place) }
    {
        let names = self.names.as_slice();
        if names.len() <= place as usize {
            return None;
        }
        Some(&names[place as usize])
    }

    /// Whether a text is one of the names.
    pub fn has(&self, text: &[u8]) -> bool
        ensures { result ≡ is_among self.now text.now }
    {
        self.find(text).is_some()
    }

    /// The place of the name that a text is; the number of names if it isn't one of them.
    pub fn place(&self, text: &[u8]) -> u32
        ensures value { result ≡ place_of self.now text.now }
        ensures within { result ≤ most_streams }
    {
        let len = self.len();
        match self.find(text) {
            Some(place) => place,
            None => len,
        }
    }

    /// Appends a new name. If memory runs out, the names are as they were.
    pub fn add(&mut self, text: &[u8]) -> Result<(), AllocError>
        requires form { is_name text.now ≡ true }
        requires room { length self.old < most_streams }
        requires new { is_among self.old text.now ≡ false }
        ensures ok { OnOk result (self.new ≡ self.old ++ text.now ∷ []) }
        ensures err { OnErr result (self.new ≡ self.old) }
    {
        if let Some(name) = Name::read(text) {
            insert(&mut self.names, name)?;
        }
        Ok(())
    }

    /// The names as a list.
    pub fn list(&self, alloc: Global) -> Result<NameList, AllocError>
        ensures { IfOk result (λ list. list ≡ self.now) }
    {
        let mut list = NameList::new(alloc);
        push_all(&mut list, self.names.as_slice())?;
        Ok(list)
    }
}

// Appends a new name to a set.
fn insert(names: &mut IndexSet<Name>, name: Name) -> Result<(), AllocError>
    requires new { is_among names.old.keys name ≡ false }
    ensures ok { OnOk result (names.new.keys ≡ names.old.keys ++ name ∷ []) }
    ensures err { OnErr result (names.new.keys ≡ names.old.keys) }
{
    match names.insert(name) {
        Ok(_) => Ok(()),
        Err(_) => Err(AllocError),
    }
}

// Appends names.
fn push_all(list: &mut NameList, names: &[Name]) -> Result<(), AllocError>
    ensures { OnOk result (list.new ≡ list.old ++ names.now) }
{
    for name in names {
        list.push(*name)?;
    }
    Ok(())
}
