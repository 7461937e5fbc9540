// What may be wrong with a row of a block besides its form.

ghost use Rattle.std.specs.Prelude.{◌≡◌, ◌||◌, ◌&&◌, not, true, bytes_eq, codes};
ghost use Rattle.std.specs.List.{list_all};
ghost use Rattle.pb_blocks.specs.Beside.{has_bad_list, has_unknown_node, is_half, is_half_told, is_round, pairs_of};
ghost use Rattle.pb_blocks.specs.Held.{leads_to_itself};
ghost use Rattle.pb_blocks.specs.Lists.{is_part, is_side, items};
ghost use Rattle.pb_blocks.specs.Texts.{field, is_blank, parts_field, place_after, side_field};

use crate::known::Known;
use crate::lists::{are_parts, has_unknown_item, is_side};
use crate::texts::{field, from_field, parts_field, place_after, side_field, to_field};
use pb_form::{Fields, OutputKind};
use pb_limits::MOST_ROUNDS;
use pb_rows::read_whole;

/// Whether a stream has only one of its value and its variance, or only one of two bounds or two least bounds.
pub fn is_half_told(kind: OutputKind, fields: &Fields) -> bool
    ensures { result ≡ is_half_told kind fields.now }
{
    pairs_of(kind).iter().any(|pair| is_half(field(fields, pair.0), field(fields, pair.1)))
}

// The places of the columns of a stream's row that belong together: a value and its variance, bounds, and least bounds.
fn pairs_of(kind: OutputKind) -> &'static [(usize, usize)]
    ensures { result.now ≡ pairs_of kind }
{
    match kind {
        OutputKind::StreamBefore => &[(4, 5), (8, 9)],
        _ => &[(4, 5), (8, 9), (10, 11)],
    }
}

// Whether one of two fields is left out and the other isn't.
fn is_half(one: &[u8], other: &[u8]) -> bool
    ensures { result ≡ is_half one.now other.now }
{
    if one.is_empty() {
        !other.is_empty()
    } else {
        other.is_empty()
    }
}

/// Whether a stream leads from or to a name that isn't one of these nodes, or has such a name in its side.
pub fn has_unknown_node(nodes: &Known, kind: OutputKind, fields: &Fields) -> bool
    ensures { result ≡ has_unknown_node nodes.now kind fields.now }
{
    !nodes.has(from_field(fields))
        || !nodes.has(to_field(fields))
        || has_unknown_item(nodes, side_field(kind, fields))
}

/// Whether a stream's side doesn't list these nodes in order, a cycle has a side, or its parts aren't signs with names.
pub fn has_bad_list(nodes: &Known, kind: OutputKind, fields: &Fields) -> bool
    ensures { result ≡ has_bad_list nodes.now kind fields.now }
{
    has_bad_side(nodes, kind, fields) || !are_parts(parts_field(kind, fields))
}

/// The same, if these parts of another stream are known to be signs with names: equal parts aren't read again.
pub fn has_bad_list_beside(nodes: &Known, kind: OutputKind, fields: &Fields, known: &[u8]) -> bool
    requires { list_all is_part (items known.now) ≡ true }
    ensures { result ≡ has_bad_list nodes.now kind fields.now }
{
    has_bad_side(nodes, kind, fields) || !are_parts_beside(parts_field(kind, fields), known)
}

// Whether a stream's side doesn't list these nodes in order, or a cycle has a side.
fn has_bad_side(nodes: &Known, kind: OutputKind, fields: &Fields) -> bool
    ensures { result ≡ (not (is_side nodes.now (items (side_field kind fields.now)))
        || (bytes_eq (field fields.now (place_after kind 12)) (codes "cycle")
        && not (is_blank (side_field kind fields.now)))) }
{
    let side = side_field(kind, fields);
    !is_side(nodes, side)
        || (is_word(field(fields, place_after(kind, 12)), b"cycle") && !side.is_empty())
}

// Whether each item is a sign with a name, if those of another list are.
fn are_parts_beside(text: &[u8], known: &[u8]) -> bool
    requires { list_all is_part (items known.now) ≡ true }
    ensures { result ≡ list_all is_part (items text.now) }
{
    is_word(text, known) || are_parts(text)
}

/// Whether a stream leads from a node to itself.
pub fn leads_to_itself(fields: &Fields) -> bool
    ensures { result ≡ leads_to_itself fields.now }
{
    is_word(from_field(fields), to_field(fields))
}

/// Whether a field is this word.
pub fn is_word(text: &[u8], word: &[u8]) -> bool
    ensures { result ≡ bytes_eq text.now word.now }
{
    text == word
}

/// Whether the end of a block has this round.
pub fn is_round(fields: &Fields, round: u32) -> bool
    ensures { result ≡ is_round fields.now round }
{
    match read_whole(field(fields, 2), 0, i128::from(MOST_ROUNDS)) {
        Some(number) => number == i128::from(round),
        None => false,
    }
}
