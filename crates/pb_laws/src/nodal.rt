// What is proved of nodal tests. The functions are empty: the contract of each is a law.

ghost use Rattle.pb_laws.specs.Nodal.{NodalOrderLaw, OneTestLaw};

use pb_stage::free_groups_law;

/// The law that each free group of a graph has exactly one nodal test, and that these are in order of the least nodes of the groups.
pub fn nodal_order_law()
    ensures order { NodalOrderLaw }
    ensures one { OneTestLaw }
{
    free_groups_law();
}
