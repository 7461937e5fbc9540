// What is proved of periods. The functions are empty: the contract of each is a law.

ghost use Rattle.pb_laws.specs.Closing.{ClosedLaw, OpenedLaw};

use pb_book::accepted_law;

/// The law that a period is closed exactly when an accepted row closes it, and that only rows that open a period make one.
pub fn closed_law()
    ensures closed { ClosedLaw }
    ensures opened { OpenedLaw }
{
    accepted_law();
}
