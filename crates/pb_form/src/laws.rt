// Laws: that values have one record and fit, and that a record is of one kind.

ghost use Rattle.pb_form.specs.Laws.{FittingLaw, OneKindLaw, OneRecordLaw};

use pb_rows::{date_text_law, number_text_law};

/// The law that no two records write the same values by a schema without a tail: a record that is read and written again
/// stays as it was.
pub fn one_record_law()
    ensures { OneRecordLaw }
{
    number_text_law();
    date_text_law();
}

/// The law that the values which a record has by a schema fit the schema's columns.
pub fn fitting_law()
    ensures { FittingLaw }
{
    date_text_law();
}

/// The law that a record which has values by the schema of a kind of a session is of this kind: no two kinds have their words and
/// their number of fields in common, and none takes an empty field at its end.
pub fn one_kind_law()
    ensures { OneKindLaw }
{}
