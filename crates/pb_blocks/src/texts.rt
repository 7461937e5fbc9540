// The fields of a row of a block that name or list something, as they are written.

ghost use Rattle.std.specs.Prelude.{◌≡◌, ◌≤◌};
ghost use Rattle.pb_blocks.specs.Texts.{field, name_field, parts_field, place_after, side_field};

use pb_form::{Fields, OutputKind};

// The field of a record at a place (place 0 is the kind); nothing if the record is shorter.
pub(crate) fn field<'a>(fields: &Fields<'a>, place: usize) -> &'a [u8]
    ensures { result.now ≡ field fields.now place }
{
    if place < fields.len() {
        fields.at(place)
    } else {
        &[]
    }
}

/// The period of a heading or an end, the name of a node or a stream, and the node or the stream of a test.
pub fn name_field<'a>(fields: &Fields<'a>) -> &'a [u8]
    ensures { result.now ≡ name_field fields.now }
{
    field(fields, 1)
}

// The node that a stream leads from.
pub(crate) fn from_field<'a>(fields: &Fields<'a>) -> &'a [u8]
    ensures { result.now ≡ field fields.now 2 }
{
    field(fields, 2)
}

// The node that a stream leads to.
pub(crate) fn to_field<'a>(fields: &Fields<'a>) -> &'a [u8]
    ensures { result.now ≡ field fields.now 3 }
{
    field(fields, 3)
}

// The place of a column after the least bounds of a stream's row: in a row without them it is two places earlier.
pub(crate) fn place_after(kind: OutputKind, place: usize) -> usize
    requires { 2 ≤ place }
    ensures { result ≡ place_after kind place }
{
    match kind {
        OutputKind::StreamBefore => place - 2,
        _ => place,
    }
}

// The side of a stream's certificate.
pub(crate) fn side_field<'a>(kind: OutputKind, fields: &Fields<'a>) -> &'a [u8]
    ensures { result.now ≡ side_field kind fields.now }
{
    field(fields, place_after(kind, 13))
}

// The parts of a stream's certificate.
pub(crate) fn parts_field<'a>(kind: OutputKind, fields: &Fields<'a>) -> &'a [u8]
    ensures { result.now ≡ parts_field kind fields.now }
{
    field(fields, place_after(kind, 14))
}
