// Names and reasons as C has them.
ghost use Rattle.std.specs.Prelude.{◌≡◌, []};
ghost use Rattle.pb_shown.specs.Texts.{padded_name, padded_reason};

use pb_rows::{Name, Reason};

/// A name with zeros after it.
pub(crate) fn padded_name(name: &Name) -> [u8; 33]
    ensures { result ≡ padded_name name.now }
{
    let text = name.bytes();
    let mut bytes = [0u8; 33];
    bytes[..text.len()].copy_from_slice(text);
    bytes
}

/// The name of nothing.
pub(crate) fn no_name() -> [u8; 33]
    ensures { result ≡ padded_name [] }
{
    [0u8; 33]
}

/// A reason with zeros after it.
pub(crate) fn padded_reason(reason: &Reason) -> [u8; 81]
    ensures { result ≡ padded_reason reason.now }
{
    let text = reason.bytes();
    let mut bytes = [0u8; 81];
    bytes[..text.len()].copy_from_slice(text);
    bytes
}

/// The reason for what has none.
pub(crate) fn no_reason() -> [u8; 81]
    ensures { result ≡ padded_reason [] }
{
    [0u8; 81]
}
