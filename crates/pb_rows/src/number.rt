// Whole numbers: read from fields, written as fields.

ghost use Rattle.std.specs.Prelude.{◌≡◌, ◌≤◌, ◌∷◌, length, true, FitsSigned, IfOk, Some};
ghost use Rattle.std.specs.Option.{SomeIff};
ghost use mir.Syntax.{w128};
ghost use Rattle.std.specs.List.{list_all};
ghost use Rattle.std.specs.Char.{is_ascii_digit};
ghost use Rattle.std.specs.Str.Parse.{digits_value};
ghost use Rattle.pb_rows.specs.Bytes.{dash};
ghost use Rattle.pb_rows.specs.Forms.{are_digits, is_padded};
ghost use Rattle.pb_rows.specs.Number.{is_plain, is_whole, number, whole_text, whole_value, within};

use std::alloc::{AllocError, Global};

// The most digits whose number always fits in 64 bits.
const MOST_DIGITS: usize = 19;

/// The whole number that a field writes, if it lies from `lo` to `hi`: decimal digits without leading zeros, and `-` only
/// before a number that isn't zero. `None` exactly when the field doesn't have this form or the number lies outside.
pub fn read_whole(field: &[u8], lo: i128, hi: i128) -> Option<i128>
    ensures { result ≡ within lo hi (number field.now) }
{
    if field.len() <= MOST_DIGITS {
        within(short_number(field)?, lo, hi)
    } else {
        read_long(field, lo, hi)
    }
}

// A number, if it lies from `lo` to `hi`.
fn within(value: i128, lo: i128, hi: i128) -> Option<i128>
    ensures { result ≡ within lo hi (Some value) }
{
    if lo <= value && value <= hi {
        Some(value)
    } else {
        None
    }
}

// The number that a field of at most 19 bytes writes, in one pass over them.
fn short_number(field: &[u8]) -> Option<i128>
    requires { length field.now ≤ 19 }
    ensures { result ≡ number field.now }
{
    match field {
        [b'-', digits @ ..] => negative_number(digits),
        _ => Some(i128::from(plain_number(field)?)),
    }
}

// The number that digits after a minus sign write.
fn negative_number(digits: &[u8]) -> Option<i128>
    requires { length digits.now ≤ 19 }
    ensures { result ≡ number (dash ∷ digits.now) }
{
    match plain_number(digits)? {
        0 => None,
        value => Some(-i128::from(value)),
    }
}

// The number that digits without leading zeros write; `None` exactly when the field doesn't have this form.
fn plain_number(field: &[u8]) -> Option<u64>
    requires { length field.now ≤ 19 }
    ensures { SomeIff result (is_plain field.now ≡ true) (digits_value 10 field.now) }
{
    if field.is_empty() || is_padded(field) {
        return None;
    }
    let mut value = 0;
    for byte in field {
        if !byte.is_ascii_digit() {
            return None;
        }
        value = value * 10 + u64::from(*byte - b'0');
    }
    Some(value)
}

// The same as `read_whole`, for a field of any length.
fn read_long(field: &[u8], lo: i128, hi: i128) -> Option<i128>
    ensures { result ≡ within lo hi (number field.now) }
{
    if !is_whole(field) {
        return None;
    }
    within(whole_value(field)?, lo, hi)
}

// The number that a field of the form writes; `None` exactly when it doesn't fit in 128 bits.
fn whole_value(field: &[u8]) -> Option<i128>
    requires { is_whole field.now ≡ true }
    ensures { SomeIff result (FitsSigned w128 (whole_value field.now)) (whole_value field.now) }
{
    let Ok(text) = std::str::from_utf8(field) else {
        return None
    };
    match text.parse::<i128>() {
        Ok(value) => Some(value),
        Err(_) => None,
    }
}

/// The bytes of a whole number in decimal, in the form that `read_whole` reads. Convert a `u32` or `u64` with `i128::from`.
pub fn whole_bytes(alloc: Global, value: i128) -> Result<Vec<u8>, AllocError>
    ensures { IfOk result (λ bytes. bytes.items ≡ whole_text value) }
{
    Ok(value.to_string(alloc)?.into_bytes())
}

// Whether a field has the form of a whole number.
fn is_whole(field: &[u8]) -> bool
    ensures { result ≡ is_whole field.now }
{
    match field {
        [b'-', digits @ ..] => is_plain(digits) && digits[0] != b'0',
        _ => is_plain(field),
    }
}

// Whether a field is digits without leading zeros.
fn is_plain(field: &[u8]) -> bool
    ensures { result ≡ is_plain field.now }
{
    are_digits(field) && !is_padded(field)
}

// Whether a field is digits, one or more.
fn are_digits(field: &[u8]) -> bool
    ensures { result ≡ are_digits field.now }
{
    !field.is_empty() && all_digits(field)
}

// Whether each byte of a field is a digit.
fn all_digits(field: &[u8]) -> bool
    ensures { result ≡ list_all is_ascii_digit field.now }
{
    field.iter().all(|byte| byte.is_ascii_digit())
}

// Whether a zero stands in front of other bytes.
fn is_padded(field: &[u8]) -> bool
    ensures { result ≡ is_padded field.now }
{
    field.len() > 1 && field[0] == b'0'
}
