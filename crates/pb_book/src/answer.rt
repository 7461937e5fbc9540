// The answer of the book to a record.

ghost use Rattle.std.specs.Prelude.{◌≡◌, ◌≤◌};
ghost use Rattle.pb_book.specs.Answer.{cause_code};

use pb_form::FormFault;
use pb_periods::BetweenFault;
use pb_rows::Name;
use std::alloc::AllocError;

/// What the book did with a record that it accepted.
#[derive(Clone, Copy, PartialEq, Eq, Debug)]
pub enum Accepted {
    /// Nothing: all fields of the record are empty.
    Blank,
    /// The row joined the stored ones.
    Stored,
    /// The classes of the declared plant are asked for.
    Design,
    /// A report of the period at this place is asked for.
    Report(u32),
    /// The history of the period at this place is asked for.
    History(u32),
    /// The cheapest metering of the declared plant is asked for, at the costs that the record names.
    Advise,
    /// A window is asked for, from the period at one place to the period at another.
    Window { first: u32, last: u32 },
    /// The balance of a component over the period at this place is asked for; some assay is of the component over that period.
    Component { component: Name, period: u32 },
}

/// Why a record is refused, in the order in which the causes are tested.
#[derive(Clone, Copy, PartialEq, Eq, Debug)]
pub enum Refused {
    /// There is no such kind of row.
    Kind,
    /// The number of fields isn't that of the row's kind.
    Fields,
    /// A name doesn't have the form of one.
    BadName,
    /// A number doesn't have the form of one, or is outside its range.
    Number,
    /// A date doesn't have the form of one, or isn't in the calendar.
    Date,
    /// A name isn't declared.
    Unknown,
    /// A name, id, day, critical value or assay is already there.
    Duplicate,
    /// A level or volume that falls, or a first day after the last.
    Order,
    /// A stream from a node to itself, a fact of another kind, a cost of a stream that isn't plain, or a day in two periods.
    Mismatch,
    /// A unit, a tank, a point of a table or a stream, once some period is closed.
    Sealed,
    /// A fact that touches a closed period, a second closing, or an assay over a closed period.
    Closed,
    /// A period or transfer that is too long, a level outside the tank's table, or a fact or an assay of days out of service.
    Range,
    /// There are already as many as are allowed.
    Full,
}

/// Why a record isn't accepted.
#[derive(Clone, Copy, PartialEq, Eq, Debug)]
pub enum NotAccepted {
    /// It is refused, for the first cause that holds.
    Refused(Refused),
    /// Memory ran out, which can happen in place of any answer.
    NoMemory,
}

impl Refused {
    /// The number of the cause in the output, from 1 to 13.
    pub fn code(self) -> u32
        ensures value { result ≡ cause_code self }
        ensures least { 1 ≤ result }
        ensures most { result ≤ 13 }
    {
        match self {
            Refused::Kind => 1,
            Refused::Fields => 2,
            Refused::BadName => 3,
            Refused::Number => 4,
            Refused::Date => 5,
            Refused::Unknown => 6,
            Refused::Duplicate => 7,
            Refused::Order => 8,
            Refused::Mismatch => 9,
            Refused::Sealed => 10,
            Refused::Closed => 11,
            Refused::Range => 12,
            Refused::Full => 13,
        }
    }
}

impl From<Refused> for NotAccepted {
    ghost use Rattle.pb_book.specs.declared.answer.NotAccepted.{NotAccepted};

    ghost from_gives = { λ cause error. error ≡ NotAccepted.Refused cause };

    fn from(cause: Refused) -> NotAccepted {
        NotAccepted::Refused(cause)
    }
}

impl From<AllocError> for NotAccepted {
    ghost use Rattle.pb_book.specs.declared.answer.NotAccepted.TheVariants.{NoMemory};

    ghost from_gives = { λ _ error. error ≡ NoMemory };

    fn from(_: AllocError) -> NotAccepted {
        NotAccepted::NoMemory
    }
}

impl From<FormFault> for Refused {
    ghost use Rattle.pb_book.specs.Answer.{cause_of};

    ghost from_gives = { λ fault cause. cause ≡ cause_of fault };

    fn from(fault: FormFault) -> Refused {
        match fault {
            FormFault::Kind | FormFault::Word => Refused::Kind,
            FormFault::Fields => Refused::Fields,
            FormFault::Name => Refused::BadName,
            FormFault::Number => Refused::Number,
            FormFault::Date => Refused::Date,
        }
    }
}

impl From<BetweenFault> for Refused {
    ghost use Rattle.pb_book.specs.Windows.{cause_between};

    ghost from_gives = { λ fault cause. cause ≡ cause_between fault };

    fn from(fault: BetweenFault) -> Refused {
        match fault {
            BetweenFault::Order => Refused::Order,
            BetweenFault::Gap => Refused::Mismatch,
            BetweenFault::TooLong => Refused::Range,
            BetweenFault::TooGreat => Refused::Full,
        }
    }
}
