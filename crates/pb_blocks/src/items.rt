// The items of a list, one at a time.

ghost use Rattle.std.specs.Prelude.{◌≡◌, ◌+◌, ◌∷◌, ◌==◌, ◌≤◌, ◌||◌, [], false, true, IfSome, IfNone, length, take};
ghost use Rattle.std.specs.List.{list_all, slice_split};
ghost use Rattle.pb_rows.specs.Bytes.{dash};
ghost use Rattle.pb_rows.specs.Name.{is_name, is_name_byte};
ghost use Rattle.pb_blocks.specs.Held.{ends_at, is_whole_name, item_end, name_end, sign_if};
ghost use Rattle.pb_blocks.specs.Lists.{is_part, is_plus, items, part_name, plus, space};

use pb_rows::Name;
use std::marker::Model;

/// The items of a list that are left: the pieces between single spaces.
#[derive(Drop)]
pub struct Items<'a> {
    rest: &'a [u8],
    ended: bool,
}

impl<'a> Model for Items<'a> {
    ghost use Rattle.std.specs.Prelude.{List, ℕ};
    ghost use Rattle.pb_blocks.specs.Held.{items_left};

    ghost Value = { List (List ℕ) };

    ghost view = { λ a. items_left a.rest.now a.ended };
}

impl<'a> Items<'a> {
    /// The items of a list; an empty list has none.
    pub fn of(text: &'a [u8]) -> Items<'a>
        ensures { result ≡ items text.now }
    {
        Items {
            rest: text,
            ended: text.is_empty(),
        }
    }

    /// Takes the next item, if one is left.
    pub fn next(&mut self) -> Option<&'a [u8]>
        ensures none { IfNone result (self.old ≡ []) }
        ensures some { IfSome result (λ item. self.old ≡ item.now ∷ self.new) }
    {
        if self.ended {
            return None;
        }
        let text = self.rest;
        let end = item_end(text);
        *self = behind(text, end);
        Some(&text[..end])
    }

    /// Takes the next item, if it is a sign with a name.
    pub fn next_part(&mut self) -> Option<&'a [u8]>
        ensures some { IfSome result
            (λ part. (self.old ≡ part.now ∷ self.new) × (is_part part.now ≡ true)) }
        ensures none { IfNone result (list_all is_part self.old ≡ (length self.old == 0)) }
        ensures kept { IfNone result (self.new ≡ self.old) }
    {
        if self.ended {
            return None;
        }
        let text = self.rest;
        let end = part_end(text)?;
        *self = behind(text, end);
        Some(&text[..end])
    }

    /// Takes the next item, if it is a sign with this name, and returns whether the sign is `+`.
    pub fn next_named(&mut self, name: &[u8]) -> Option<bool>
        requires { is_name name.now ≡ true }
        ensures some { IfSome result
            (λ positive. self.old ≡ (sign_if positive ∷ name.now) ∷ self.new) }
        ensures none { IfNone result (self.new ≡ self.old) }
    {
        if self.ended || !begins_with_part(self.rest, name) {
            return None;
        }
        let positive = is_plus(self.rest);
        *self = behind(self.rest, name.len() + 1);
        Some(positive)
    }
}

// The items after the first item of a text, which ends at this place.
fn behind(text: &[u8], end: usize) -> Items<'_>
    requires { end ≡ item_end text.now }
    ensures { slice_split (λ byte. byte == space) text.now ≡ take end text.now ∷ result }
{
    if end < text.len() {
        Items {
            rest: &text[end + 1..],
            ended: false,
        }
    } else {
        Items {
            rest: text,
            ended: true,
        }
    }
}

// Where the first item of a text ends: at a space, or with the text.
fn item_end(text: &[u8]) -> usize
    ensures { result ≡ item_end text.now }
{
    match text.iter().position(|byte| *byte == b' ') {
        Some(end) => end,
        None => text.len(),
    }
}

// Where the first item of a text ends, if it is a sign with a name.
fn part_end(text: &[u8]) -> Option<usize>
    ensures some { IfSome result
        (λ end. (end ≡ item_end text.now) × (is_part (take end text.now) ≡ true)) }
    ensures none { IfNone result (is_part (take (item_end text.now) text.now) ≡ false) }
{
    match text {
        [sign, name @ ..] if is_sign(*sign) => {
            let end = whole_name_end(name)?;
            Some(end + 1)
        }
        _ => None,
    }
}

// Where the first item of a text ends, if it is a name.
fn whole_name_end(text: &[u8]) -> Option<usize>
    ensures some { IfSome result
        (λ end. (end ≡ item_end text.now) × (is_name (take end text.now) ≡ true)) }
    ensures none { IfNone result (is_name (take (item_end text.now) text.now) ≡ false) }
    ensures within { IfSome result (λ end. end ≤ length text.now) }
{
    let end = name_end(text);
    if is_whole_name(text, end) {
        Some(end)
    } else {
        None
    }
}

// Whether this many bytes at the front of a text, all of which may stand in a name, are a name and the whole of the first item.
fn is_whole_name(text: &[u8], end: usize) -> bool
    requires { end ≤ length text.now }
    ensures { result ≡ is_whole_name text.now end }
{
    end != 0 && end <= 32 && ends_at(text, end)
}

// How many bytes at the front of a text may stand in a name.
fn name_end(text: &[u8]) -> usize
    ensures value { result ≡ name_end text.now }
    ensures within { result ≤ length text.now }
{
    match text.iter().position(|byte| !is_name_byte(*byte)) {
        Some(end) => end,
        None => text.len(),
    }
}

// Whether an item ends at this place of a text.
fn ends_at(text: &[u8], place: usize) -> bool
    requires { place ≤ length text.now }
    ensures { result ≡ ends_at text.now place }
{
    place == text.len() || text[place] == b' '
}

// Whether the first item of a text is a sign with this name.
fn begins_with_part(text: &[u8], name: &[u8]) -> bool
    requires { is_name name.now ≡ true }
    ensures part { result ≡ true → take (item_end text.now) text.now
        ≡ sign_if (is_plus text.now) ∷ name.now }
    ensures end { result ≡ true → item_end text.now ≡ length name.now + 1 }
{
    match text {
        [sign, rest @ ..] => is_sign(*sign) && begins_with_item(rest, name),
        [] => false,
    }
}

// Whether the first item of a text is this name.
fn begins_with_item(text: &[u8], name: &[u8]) -> bool
    requires { is_name name.now ≡ true }
    ensures item { result ≡ true → take (length name.now) text.now ≡ name.now }
    ensures end { result ≡ true → item_end text.now ≡ length name.now }
{
    begins_with(text, name) && ends_at(text, name.len())
}

// Whether a text begins with this name.
fn begins_with(text: &[u8], name: &[u8]) -> bool
    ensures front { result ≡ true → take (length name.now) text.now ≡ name.now }
    ensures within { result ≡ true → length name.now ≤ length text.now }
{
    name.len() <= text.len() && &text[..name.len()] == name
}

// Whether a byte is a sign.
fn is_sign(byte: u8) -> bool
    ensures { result ≡ (byte == plus) || (byte == dash) }
{
    byte == b'+' || byte == b'-'
}

// Whether a byte may stand in a name.
fn is_name_byte(byte: u8) -> bool
    ensures { result ≡ is_name_byte byte }
{
    match byte {
        b'0'..=b'9' | b'a'..=b'z' | b'A'..=b'Z' => true,
        _ => byte == b'_' || byte == b'-' || byte == b'.',
    }
}

// Whether an item begins with `+`.
pub(crate) fn is_plus(item: &[u8]) -> bool
    ensures { result ≡ is_plus item.now }
{
    match item {
        [sign, ..] => *sign == b'+',
        [] => false,
    }
}

// Whether an item is a name.
pub(crate) fn is_name(item: &[u8]) -> bool
    ensures { result ≡ is_name item.now }
{
    Name::read(item).is_some()
}

// The name after the sign of a part.
pub(crate) fn part_name(item: &[u8]) -> &[u8]
    ensures { result.now ≡ part_name item.now }
{
    match item {
        [_, name @ ..] => name,
        [] => item,
    }
}
