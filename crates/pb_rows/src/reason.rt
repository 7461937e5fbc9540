// Reasons of amendments and strikes.

ghost use Rattle.std.specs.Prelude.{◌≡◌, Some, true, false, MatchOption};
ghost use Rattle.std.specs.Cmp.{partial_equiv_from_equiv};
ghost use Rattle.std.specs.Cmp.Lexicographic.{nat_list_eq_equiv};
ghost use Rattle.std.specs.List.{list_all};
ghost use Rattle.pb_rows.specs.Reason.{is_reason, is_reason_byte, same_reason};
ghost use Rattle.pb_rows.specs.Forms.{has_reason_length};

use std::fmt;
use std::marker::Model;

/// The most bytes that a reason can have.
pub const MOST_REASON: usize = 80;

/// A reason: 1 to 80 bytes, each from the space to `~`.
#[derive(Clone, Copy)]
pub struct Reason {
    bytes: [u8; 80],
    len: u8,
}

impl Model for Reason {
    ghost use Rattle.std.specs.Prelude.{List, ℕ, take, ◌++◌, ◌-◌, replicate, length};
    ghost use Rattle.pb_rows.specs.Padded.{IsPadded, padded_bytes, padded_len};
    ghost use Rattle.pb_rows.specs.Reason.{is_reason, most_reason};

    ghost Value = { List ℕ };

    ghost view = { λ a. take a.len a.bytes };

    ghost invariant = { λ a. IsPadded is_reason most_reason a.len a.bytes };

    ghost inverse = { λ v. record { bytes = v ++ replicate (80 - length v) 0; len = length v } };

    ghost inverse_ok = { λ a h. λ i. record {
      bytes = padded_bytes is_reason most_reason a.len a.bytes h i;
      len = padded_len is_reason most_reason a.len a.bytes h i;
    } };
}

impl PartialEq for Reason {
    ghost eq = { same_reason };

    ghost laws = { partial_equiv_from_equiv nat_list_eq_equiv };

    fn eq(&self, other: &Reason) -> bool {
        self.bytes() == other.bytes()
    }
}

impl Eq for Reason {
    ghost laws = { nat_list_eq_equiv };
}

impl Reason {
    /// The reason that a field writes; `None` exactly when the field doesn't have the form.
    pub fn read(field: &[u8]) -> Option<Reason>
        ensures { MatchOption result (is_reason field.now ≡ false)
            (λ reason. (is_reason field.now ≡ true) × (reason ≡ field.now)) }
    {
        if !is_reason(field) {
            return None;
        }
        let mut bytes = [0u8; MOST_REASON];
        bytes[..field.len()].copy_from_slice(field);
        Some(Reason {
            bytes,
            len: field.len() as u8,
        })
    }

    /// The bytes of the reason, which have the form of a reason.
    pub fn bytes(&self) -> &[u8]
        ensures value { result.now ≡ self.now }
        ensures form { is_reason self.now ≡ true }
    {
        &self.bytes[..usize::from(self.len)]
    }

    /// The reason as a text.
    pub fn as_str(&self) -> &str
        ensures { result.now ≡ self.now }
    {
        std::str::from_utf8(self.bytes()).unwrap()
    }
}

impl fmt::Display for Reason {
    ghost output = { λ reason. Some reason };

    fn fmt<W: fmt::Write>(&self, f: &mut fmt::Formatter<W>) -> fmt::Result {
        f.write_str(self.as_str())
    }
}

impl fmt::Debug for Reason {
    fn fmt<W: fmt::Write>(&self, f: &mut fmt::Formatter<W>) -> fmt::Result {
        f.write_str(self.as_str())
    }
}

// Whether a field has the form of a reason.
fn is_reason(field: &[u8]) -> bool
    ensures { result ≡ is_reason field.now }
{
    has_reason_length(field) && has_reason_bytes(field)
}

// Whether each byte of a field may stand in a reason.
fn has_reason_bytes(field: &[u8]) -> bool
    ensures { result ≡ list_all is_reason_byte field.now }
{
    field.iter().all(|byte| is_reason_byte(*byte))
}

// Whether a field is as long as a reason may be.
fn has_reason_length(field: &[u8]) -> bool
    ensures { result ≡ has_reason_length field.now }
{
    !field.is_empty() && field.len() <= MOST_REASON
}

// Whether a byte may stand in a reason.
fn is_reason_byte(byte: u8) -> bool
    ensures { result ≡ is_reason_byte byte }
{
    (b' '..=b'~').contains(&byte)
}
