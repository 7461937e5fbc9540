// One fact, and what can be wrong with it.

ghost use Rattle.std.specs.Prelude.{◌≡◌};
ghost use Rattle.pb_facts.specs.Changes.{changed, fits};
ghost use Rattle.pb_facts.specs.Fact.{id_of, is_fact_out_of_order, is_too_long};
ghost use Rattle.pb_facts.specs.Shelf.{stream_or_tank};

use pb_limits::MOST_DAYS_OF_TRANSFER;
use pb_rows::Name;

/// A fact of a plant, with its id.
#[derive(Clone, Copy)]
pub enum Fact {
    /// What a metered stream carried on a day: grams, negative against its arrow, with their variance in squared grams.
    Reading {
        id: Name,
        stream: Name,
        day: i32,
        grams: i64,
        variance: i128,
    },
    /// What a batch stream carried from a first to a last day, both included: grams, with their variance in squared grams.
    Transfer {
        id: Name,
        stream: Name,
        first: i32,
        last: i32,
        grams: i64,
        variance: i128,
    },
    /// A tank's content at the end of a day: the level in millimetres, the density in grams per cubic metre, and the variance of
    /// the content in squared grams.
    Dip {
        id: Name,
        tank: Name,
        day: i32,
        mm: i64,
        density: i64,
        variance: i128,
    },
}

/// New values of a fact: its id, its stream or tank and its days stay the same.
#[derive(Clone, Copy)]
pub enum Change {
    /// What a reading or a transfer carried: grams, with their variance in squared grams.
    Amount {
        grams: i64,
        variance: i128,
    },
    /// What a dip says: the level in millimetres, the density in grams per cubic metre, and the variance of the content in
    /// squared grams.
    Level {
        mm: i64,
        density: i64,
        variance: i128,
    },
}

/// Why a fact, or a change of a fact, isn't accepted.
#[derive(Clone, Copy, PartialEq, Eq, Debug)]
pub enum FactFault {
    /// No live fact has the id.
    Unknown,
    /// The id was used before, or a live fact has the same stream or tank and day.
    Duplicate,
    /// The first day comes after the last.
    Order,
    /// The change is of a different kind from the fact.
    Mismatch,
    /// A transfer of more than 366 days.
    Range,
    /// As many facts as there may be were added.
    Full,
}

impl Fact {
    /// The fact's id.
    pub fn id(&self) -> Name
        ensures { result ≡ id_of self.now }
    {
        match self {
            Fact::Reading { id, .. } => *id,
            Fact::Transfer { id, .. } => *id,
            Fact::Dip { id, .. } => *id,
        }
    }

    // The name of its stream or tank.
    pub(crate) fn stream_or_tank(&self) -> Name
        ensures { result ≡ stream_or_tank self.now }
    {
        match self {
            Fact::Reading { stream, .. } => *stream,
            Fact::Transfer { stream, .. } => *stream,
            Fact::Dip { tank, .. } => *tank,
        }
    }

    /// Whether it is a transfer whose first day comes after its last.
    pub fn is_out_of_order(&self) -> bool
        ensures { result ≡ is_fact_out_of_order self.now }
    {
        match self {
            Fact::Transfer { first, last, .. } => *last < *first,
            _ => false,
        }
    }

    /// Whether it is a transfer of more than 366 days.
    pub fn is_too_long(&self) -> bool
        ensures { result ≡ is_too_long self.now }
    {
        match self {
            Fact::Transfer { first, last, .. } => {
                i64::from(*last) - i64::from(*first) >= i64::from(MOST_DAYS_OF_TRANSFER)
            }
            _ => false,
        }
    }

    /// The fact with its values replaced by these, if they are of its kind.
    pub fn changed(&self, change: Change) -> Fact
        ensures { result ≡ changed change self.now }
    {
        match (change, *self) {
            (
                Change::Amount { grams, variance },
                Fact::Reading {
                    id,
                    stream,
                    day,
                    ..
                },
            ) => Fact::Reading {
                id,
                stream,
                day,
                grams,
                variance,
            },
            (
                Change::Amount { grams, variance },
                Fact::Transfer {
                    id,
                    stream,
                    first,
                    last,
                    ..
                },
            ) => Fact::Transfer {
                id,
                stream,
                first,
                last,
                grams,
                variance,
            },
            (
                Change::Level {
                    mm,
                    density,
                    variance,
                },
                Fact::Dip { id, tank, day, .. },
            ) => Fact::Dip {
                id,
                tank,
                day,
                mm,
                density,
                variance,
            },
            (_, fact) => fact,
        }
    }
}

impl Change {
    /// Whether the change is of a fact's kind: a level for a dip, an amount for a reading or a transfer.
    pub fn fits(&self, fact: &Fact) -> bool
        ensures { result ≡ fits self.now fact.now }
    {
        match (self, fact) {
            (Change::Level { .. }, Fact::Dip { .. }) => true,
            (Change::Level { .. }, _) => false,
            (Change::Amount { .. }, Fact::Dip { .. }) => false,
            (Change::Amount { .. }, _) => true,
        }
    }
}
