// What is proved of least vectors. The functions are empty: the contract of each is a law.

ghost use Rattle.pb_least.specs.Laws.{OneLeastLaw, OtherLeastLaw, SomeLeastLaw};

use pb_gap::{least_law, weight_law};

/// The law that each process graph has a least squares solution, in fractions, so that least bounds are never bounds of nothing.
pub fn some_least_law()
    ensures { SomeLeastLaw }
{
    weight_law();
}

/// The law that least squares solutions have the same flow for each stream that is measured or that the measured ones determine, and for no
/// other.
pub fn one_least_law()
    ensures same { OneLeastLaw }
    ensures other { OtherLeastLaw }
{
    weight_law();
    least_law();
}
