// What may be wrong with the fields of a row.

ghost use Rattle.std.specs.Prelude.{◌≡◌};
ghost use Rattle.pb_form.specs.Reading.{order_of, sooner};
ghost use Rattle.pb_form.specs.Told.{soonest};

/// What is wrong with a row, by its fields alone. If a row has several faults, the first of these is reported.
#[derive(Clone, Copy, PartialEq, Eq, Debug)]
pub enum FormFault {
    /// No kind of rows has these words.
    Kind,
    /// No kind of rows with these words has this number of fields.
    Fields,
    /// A field isn't a name, or a reason.
    Name,
    /// A field isn't a whole number in its range.
    Number,
    /// A field isn't a date.
    Date,
    /// A field isn't one of its words.
    Word,
}

// The place of a fault among the faults.
fn order_of(fault: FormFault) -> u8
    ensures { result ≡ order_of fault }
{
    fault as u8
}

// The first of two faults.
fn sooner(one: FormFault, other: FormFault) -> FormFault
    ensures { result ≡ sooner one other }
{
    if order_of(other) < order_of(one) {
        other
    } else {
        one
    }
}

// The first of the faults so far and another one.
pub(crate) fn soonest(first: Option<FormFault>, fault: FormFault) -> FormFault
    ensures { result ≡ soonest first fault }
{
    match first {
        None => fault,
        Some(first) => sooner(first, fault),
    }
}
