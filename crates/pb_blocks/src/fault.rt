// Why a row of a block can't be read.

ghost use Rattle.std.specs.Prelude.{◌≡◌, nat_lt, if◌then◌else◌};
ghost use Rattle.pb_blocks.specs.Codes.{lowest, row_fault_code};

use pb_form::FormFault;

/// The faults of a row, in the order in which they are reported.
#[derive(Clone, Copy, PartialEq, Eq, Debug)]
pub enum RowFault {
    /// A row of this kind may not be here.
    Kind,
    /// It has more or fewer fields than its kind has, or, for a stream, than the first stream of its block.
    Fields,
    /// A field isn't a name.
    Name,
    /// A field isn't a number in its range, or is left empty although the field that belongs with it isn't.
    Number,
    /// A name isn't the name of a node or stream of the block, or the end isn't the end of the block.
    Unknown,
    /// Two nodes have the same name, or two streams do.
    Duplicate,
    /// A field isn't one of its words.
    Word,
    /// A list doesn't have its form.
    Shape,
    /// The block has too few nodes or too many nodes or streams, or a stream leads from a node to itself.
    Count,
    /// The first node isn't the environment.
    Env,
    /// The input ends within a block.
    Ended,
}

impl RowFault {
    /// The number of the fault; the lowest is reported.
    pub fn code(self) -> u32
        ensures value { result ≡ row_fault_code self }
    {
        match self {
            RowFault::Kind => 1,
            RowFault::Fields => 2,
            RowFault::Name => 3,
            RowFault::Number => 4,
            RowFault::Unknown => 5,
            RowFault::Duplicate => 6,
            RowFault::Word => 7,
            RowFault::Shape => 8,
            RowFault::Count => 9,
            RowFault::Env => 10,
            RowFault::Ended => 11,
        }
    }
}

impl From<FormFault> for RowFault {
    ghost use Rattle.pb_blocks.specs.Codes.{fault_by};

    ghost from_gives = { λ form fault. fault ≡ fault_by form };

    fn from(form: FormFault) -> RowFault {
        match form {
            FormFault::Kind => RowFault::Kind,
            FormFault::Fields => RowFault::Fields,
            FormFault::Name => RowFault::Name,
            FormFault::Number | FormFault::Date => RowFault::Number,
            FormFault::Word => RowFault::Word,
        }
    }
}

/// The lower of two faults, if there are any.
pub fn lowest(one: Option<RowFault>, other: Option<RowFault>) -> Option<RowFault>
    ensures { result ≡ lowest one other }
{
    match (one, other) {
        (None, other) => other,
        (Some(one), None) => Some(one),
        (Some(one), Some(other)) => Some(lower(one, other)),
    }
}

// The lower of two faults.
fn lower(one: RowFault, other: RowFault) -> RowFault
    ensures { result ≡ if nat_lt (row_fault_code other) (row_fault_code one) then other else one }
{
    if other.code() < one.code() {
        other
    } else {
        one
    }
}
