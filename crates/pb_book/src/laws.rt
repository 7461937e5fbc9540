// Laws of the book.

ghost use Rattle.pb_book.specs.Laws.{AcceptedLaw, AskedWindowLaw, MeterCostsLaw};
ghost use Rattle.pb_book.specs.Live.{LiveLaw};
ghost use Rattle.pb_book.specs.Named.{GradesLaw, NamedLaw, RangesLaw};
ghost use Rattle.pb_book.specs.Plain.{PlainLaw};
ghost use Rattle.pb_book.specs.TakenOut.{TouchedLaw};
ghost use Rattle.pb_book.specs.VersionOne.{VersionOneLaw};
ghost use Rattle.pb_book.specs.Windows.{BookWindowsLaw};

use pb_kinds::{named_costs_law, stored_law};
use pb_plan::{window_form_law, window_names_law, window_places_law};
use pb_site::plant_law;

/// The law that the rows of a session were accepted one after the other, whatever its records are; and that then no two periods
/// share a name or a day, and each dip lies in its tank's table, which may have grown since.
pub fn accepted_law()
    ensures { AcceptedLaw }
{
    stored_law();
}

/// The law that the plain rows of accepted rows are accepted one after the other, and that they declare the same plant and the
/// same periods and have the live facts with their last values.
pub fn plain_law()
    ensures { PlainLaw }
{}

/// The law that the live facts of accepted rows are the booked facts in order, late or not, whose ids no row strikes, each with the
/// values of the last row that changes it, or with its own if no row does.
pub fn live_law()
    ensures { LiveLaw }
{}

/// The law that after one more row, it is this row that takes out a period, given the facts and the periods after it.
pub fn touched_law()
    ensures { TouchedLaw }
{}

/// The law that the names of units, tanks, streams and periods in the rows of a session are names, whatever its records are, and so
/// is that of a component whose balance is answered.
pub fn named_law()
    ensures { NamedLaw }
{
    stored_law();
}

/// The law that the numbers that accepted rows declare lie in their ranges.
pub fn ranges_law()
    ensures { RangesLaw }
{}

/// The law that each grade that accepted rows give is within its limits.
pub fn grades_law()
    ensures { GradesLaw }
{}

/// The law that if a record is accepted as one that asks for advice, each cost of a meter is one that a meter may have.
pub fn meter_costs_law()
    ensures { MeterCostsLaw }
{
    named_costs_law();
}

/// The law that a record gets the answer that it has in a session of version 1, unless it or an earlier record states that the
/// session is of version 2.
pub fn version_one_law()
    ensures { VersionOneLaw }
{}

/// The law that a record that is accepted as one that asks for a window asks for a window between periods that exist, and one that
/// there is no cause to refuse.
pub fn asked_window_law()
    ensures { AskedWindowLaw }
{}

/// The law that for accepted rows, a window that there is no cause to refuse has the form of a graph, distinct names, and names of
/// the plant and of the periods for each node and stream.
pub fn book_windows_law()
    ensures { BookWindowsLaw }
{
    plant_law();
    window_form_law();
    window_names_law();
    window_places_law();
}
