// What is proved of the drops that tests of measurements print. The function is empty: its contract is a law.

ghost use Rattle.pb_laws.specs.Drops.{DropOrderLaw};

use pb_elim::certified_law;
use pb_stage::ends_law;

/// The law that the low end of each drop is at most its high end: leaving out a measurement never raises the least weighted squares.
pub fn drop_order_law()
    ensures { DropOrderLaw }
{
    certified_law();
    ends_law();
}
