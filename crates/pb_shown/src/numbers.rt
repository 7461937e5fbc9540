// Numbers as C has them, and how much there is of everything.
ghost use Rattle.std.specs.Prelude.{◌≡◌, length};
ghost use Rattle.pb_shown.specs.Counts.{IsCountOf};
ghost use Rattle.pb_shown.specs.Wide.{value_of};

use pb_book::Book;
use pb_site::Version;

/// A whole number of up to 128 bits: `high` times 2 to the power of 64, plus `low`.
#[repr(C)]
#[derive(Clone, Copy)]
pub struct PlantbalWide {
    /// The low word.
    pub low: u64,
    /// The high word, with the sign.
    pub high: i64,
}

/// A number in two words.
pub fn wide_of(value: i128) -> PlantbalWide
    ensures { value_of result ≡ value }
{
    PlantbalWide {
        low: value.rem_euclid(1 << 64) as u64,
        high: value.div_euclid(1 << 64) as i64,
    }
}

/// How much there is of everything. What there are n of has the places from 0 to n - 1.
#[repr(C)]
#[derive(Clone, Copy)]
pub struct PlantbalCounts {
    /// The version of the session, 1 or 2; 0 while no row is stored.
    pub version: u32,
    /// Nodes: the environment, whose place is 0, the units and the tanks.
    pub nodes: u32,
    /// Streams, and tanks as what they hold.
    pub streams: u32,
    /// Periods.
    pub periods: u32,
    /// Facts that were booked, struck ones too.
    pub facts: u32,
    /// Assays.
    pub assays: u32,
    /// Edits: periods closed, facts booked late, changed or struck.
    pub edits: u64,
}

/// How much there is of everything in a book.
pub fn counts_of(book: &Book) -> PlantbalCounts
    ensures { IsCountOf book.now result }
{
    let site = book.site();
    PlantbalCounts {
        version: match book.version() {
            Some(Version::Two) => 2,
            Some(Version::One) => 1,
            None => 0,
        },
        nodes: site.nodes(),
        streams: site.arcs(),
        periods: book.periods(),
        facts: book.facts().len(),
        assays: book.assays(),
        edits: book.edits() as u64,
    }
}
