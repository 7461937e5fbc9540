// The kind of a row, by its word and the number of its fields.

ghost use Rattle.std.specs.Prelude.{◌≡◌, find, if◌then◌else◌, option_copied};
ghost use Rattle.std.specs.List.{list_any};
ghost use Rattle.pb_form.specs.OutputRows.{output_schema};
ghost use Rattle.pb_form.specs.Telling.{is_of};
ghost use Rattle.pb_form.specs.declared.output.OutputKind.{OutputKind};
ghost use Rattle.pb_blocks.specs.Codes.{fault_by};
ghost use Rattle.pb_blocks.specs.Held.{has_word_of};
ghost use Rattle.pb_blocks.specs.Kinds.{is_passed_over, kind_among, passed_kinds};

use crate::fault::RowFault;
use pb_form::{Fields, FormFault, OutputKind, output_schema, tell};
use pb_rows::Row;

/// The kind of a record among these: the first whose word and number of fields it has. Otherwise `Fields`, if it has the word of
/// one of them, and `Kind` if it doesn't.
pub fn kind_among(kinds: &[OutputKind], fields: &Fields) -> Result<OutputKind, RowFault>
    ensures { result ≡ kind_among kinds.now fields.now }
{
    match first_kind(kinds, fields) {
        Some(kind) => Ok(*kind),
        None => Err(no_kind(kinds, fields)),
    }
}

// The first of these kinds whose word and number of fields a record has.
fn first_kind<'a>(kinds: &'a [OutputKind], fields: &Fields) -> Option<&'a OutputKind>
    ensures { option_copied result
        ≡ find (λ (kind : OutputKind). is_of fields.now (output_schema kind)) kinds.now }
{
    kinds.iter().find(|kind| is_row_of(**kind, fields))
}

// Why a record is of none of these kinds.
fn no_kind(kinds: &[OutputKind], fields: &Fields) -> RowFault
    ensures { result ≡ fault_by (if list_any (has_word_of fields.now) kinds.now
        then FormFault.Fields else FormFault.Kind) }
{
    if has_word_among(kinds, fields) {
        RowFault::Fields
    } else {
        RowFault::Kind
    }
}

// Whether a record has the word of one of these kinds.
fn has_word_among(kinds: &[OutputKind], fields: &Fields) -> bool
    ensures { result ≡ list_any (has_word_of fields.now) kinds.now }
{
    kinds.iter().any(|kind| has_word_of(*kind, fields))
}

// Whether a record has a kind's word and its number of fields.
fn is_row_of(kind: OutputKind, fields: &Fields) -> bool
    ensures { result ≡ is_of fields.now (output_schema kind) }
{
    tell(&[*output_schema(kind)], fields).is_ok()
}

// Whether a record has a kind's word, whatever its other fields are.
fn has_word_of(kind: OutputKind, fields: &Fields) -> bool
    ensures { result ≡ has_word_of fields.now kind }
{
    match tell(&[*output_schema(kind)], fields) {
        Ok(_) => true,
        Err(fault) => fault != FormFault::Kind,
    }
}

/// Whether a record is skipped between blocks: it is a row of a session's output but not a row of a report.
pub fn is_passed_over(row: &Row) -> bool
    ensures { result ≡ is_passed_over row.now }
{
    has_word_among(passed_kinds(), &Fields::all(row))
}

// The kinds of the rows that are skipped.
fn passed_kinds() -> &'static [OutputKind]
    ensures { result.now ≡ passed_kinds }
{
    &[
        OutputKind::Refused,
        OutputKind::Over,
        OutputKind::Design,
        OutputKind::Class,
        OutputKind::History,
        OutputKind::Edit,
        OutputKind::Taken,
        OutputKind::Stop,
        OutputKind::Advise,
        OutputKind::Meter,
        OutputKind::Window,
        OutputKind::Place,
        OutputKind::Component,
    ]
}
