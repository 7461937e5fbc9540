// Names of units, tanks, streams, periods and facts.

ghost use Rattle.std.specs.Prelude.{◌≡◌, ◌<◌, ◌∷◌, ◌++◌, [], length, slice_index_or, Some, refl, true, false, MatchOption, OnOk, OnErr, IsTrue, ◌↔◌};
ghost use Rattle.std.specs.List.{list_all};
ghost use Rattle.std.specs.Cmp.{partial_equiv_from_equiv};
ghost use Rattle.std.specs.Cmp.Lexicographic.{nat_list_cmp_total, nat_list_eq_equiv, slice_cmp, texts_po, texts_ties};
ghost use Rattle.std.specs.Ordering.{nat_cmp};
ghost use Rattle.std.specs.Slice.Iter.{iter_rest};
ghost use Rattle.pb_rows.specs.Hashed.{same_name_writes};
ghost use Rattle.pb_rows.specs.Name.{is_name, is_name_byte, same_name};
ghost use Rattle.pb_rows.specs.Forms.{has_name_length};

use std::alloc::{AllocError, Global};
use std::cmp::Ordering;
use std::fmt;
use std::hash::{Hash, Hasher};
use std::marker::Model;
use std::slice::Iter;

/// A name: 1 to 32 bytes, each an ASCII letter, a digit, `_`, `-` or `.`.
#[derive(Clone, Copy)]
pub struct Name {
    bytes: [u8; 32],
    len: u8,
}

impl Model for Name {
    ghost use Rattle.std.specs.Prelude.{List, ℕ, take, ◌++◌, ◌-◌, replicate, length};
    ghost use Rattle.pb_rows.specs.Name.{is_name};
    ghost use Rattle.pb_rows.specs.Padded.{IsPadded, padded_bytes, padded_len};

    ghost Value = { List ℕ };

    ghost view = { λ a. take a.len a.bytes };

    ghost invariant = { λ a. IsPadded is_name 32 a.len a.bytes };

    ghost inverse = { λ v. record { bytes = v ++ replicate (32 - length v) 0; len = length v } };

    ghost inverse_ok = { λ a h. λ i. record {
      bytes = padded_bytes is_name 32 a.len a.bytes h i;
      len = padded_len is_name 32 a.len a.bytes h i;
    } };
}

impl PartialEq for Name {
    ghost eq = { same_name };

    ghost laws = { partial_equiv_from_equiv nat_list_eq_equiv };

    fn eq(&self, other: &Name) -> bool {
        self.len == other.len && self.bytes == other.bytes
    }
}

impl Eq for Name {
    ghost laws = { nat_list_eq_equiv };
}

// By bytes, as texts are ordered.
impl PartialOrd for Name {
    ghost partial_cmp = { λ a b. Some (slice_cmp nat_cmp a b) };

    ghost laws = { texts_po };

    fn partial_cmp(&self, other: &Name) -> Option<Ordering> {
        Some(self.cmp(other))
    }
}

impl Ord for Name {
    ghost cmp = { slice_cmp nat_cmp };

    ghost total = { nat_list_cmp_total };

    ghost matches_partial_cmp = { λ a b. refl };

    ghost matches_eq = { texts_ties };

    fn cmp(&self, other: &Name) -> Ordering {
        self.as_str().cmp(other.as_str())
    }
}

impl Hash for Name {
    ghost hash_input = { λ name. name ∷ [] };

    ghost respects_eq = { λ a b same. same_name_writes a b same };

    fn hash<H: Hasher>(&self, state: &mut H) {
        state.write(self.bytes());
    }
}

impl Name {
    /// The name that a field writes; `None` exactly when the field doesn't have the form.
    pub fn read(field: &[u8]) -> Option<Name>
        ensures { MatchOption result (is_name field.now ≡ false)
            (λ name. (is_name field.now ≡ true) × (name ≡ field.now)) }
    {
        if !has_name_length(field) {
            return None;
        }
        let mut bytes = [0u8; 32];
        for i in 0..field.len() {
            let byte = field[i];
            if !is_name_byte(byte) {
                return None;
            }
            bytes[i] = byte;
        }
        Some(Name {
            bytes,
            len: field.len() as u8,
        })
    }

    /// The bytes of the name, which have the form of a name.
    pub fn bytes(&self) -> &[u8]
        ensures value { result.now ≡ self.now }
        ensures form { is_name self.now ≡ true }
    {
        &self.bytes[..usize::from(self.len)]
    }

    /// The name as a text.
    pub fn as_str(&self) -> &str
        ensures { result.now ≡ self.now }
    {
        std::str::from_utf8(self.bytes()).unwrap()
    }
}

impl fmt::Display for Name {
    ghost output = { λ name. Some name };

    fn fmt<W: fmt::Write>(&self, f: &mut fmt::Formatter<W>) -> fmt::Result {
        f.write_str(self.as_str())
    }
}

impl fmt::Debug for Name {
    fn fmt<W: fmt::Write>(&self, f: &mut fmt::Formatter<W>) -> fmt::Result {
        f.write_str(self.as_str())
    }
}

// Whether a field is as long as a name may be.
fn has_name_length(field: &[u8]) -> bool
    ensures { result ≡ has_name_length field.now }
{
    !field.is_empty() && field.len() <= 32
}

// Whether a byte may stand in a name.
fn is_name_byte(byte: u8) -> bool
    ensures { result ≡ is_name_byte byte }
{
    byte.is_ascii_alphanumeric() || byte == b'_' || byte == b'-' || byte == b'.'
}

/// A list of names.
#[derive(Debug, Drop)]
pub struct NameList {
    names: Vec<Name>,
}

impl Model for NameList {
    ghost use Rattle.std.specs.Prelude.{List, ℕ};

    ghost Value = { List (List ℕ) };

    ghost view = { λ a. a.names.items };
}

impl NameList {
    /// An empty list.
    pub fn new(alloc: Global) -> NameList
        ensures { result ≡ [] }
    {
        NameList {
            names: Vec::new(alloc),
        }
    }

    /// Appends a name. After an `Err`, out of memory, the list is as it was.
    pub fn push(&mut self, name: Name) -> Result<(), AllocError>
        ensures appended { OnOk result (self.new ≡ self.old ++ name ∷ []) }
        ensures unchanged { OnErr result (self.new ≡ self.old) }
    {
        self.names.push(name)?;
        Ok(())
    }

    /// The number of names.
    pub fn len(&self) -> usize
        ensures { result ≡ length self.now }
    {
        self.names.len()
    }

    /// Whether there are no names.
    pub fn is_empty(&self) -> bool
        ensures { IsTrue result ↔ (self.now ≡ []) }
    {
        self.names.is_empty()
    }

    /// The names in order.
    pub fn iter(&self) -> Iter<'_, Name>
        ensures { iter_rest result ≡ self.now }
    {
        self.names.iter()
    }

    /// The names as a slice.
    pub fn as_slice(&self) -> &[Name]
        ensures { result.now ≡ self.now }
    {
        self.names.as_slice()
    }

    /// The name at a place, counted from 0.
    pub fn at(&self, i: usize) -> &Name
        requires { i < length self.now }
        ensures { result.now ≡ slice_index_or self.now i [] }
    {
        &self.names[i]
    }
}

/// The names of a graph's nodes and streams, in their order.
#[derive(Debug, Drop)]
pub struct Names {
    pub nodes: NameList,
    pub streams: NameList,
}
