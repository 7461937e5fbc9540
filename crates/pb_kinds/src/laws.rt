// Laws about what records ask for.

ghost use Rattle.pb_kinds.specs.Laws.{AskingLaw, NamedCostsLaw, StoredLaw};

use pb_form::fitting_law;

/// The law that the numbers and days of what a record asks to store lie in their ranges, that its names have the form of names, and
/// that a row of a session of the version may do it.
pub fn stored_law()
    ensures { StoredLaw }
{
    fitting_law();
}

/// The law that each cost named by a record that asks for advice is a cost that a meter may have.
pub fn named_costs_law()
    ensures { NamedCostsLaw }
{
    fitting_law();
}

/// The law that a record which writes values by the schema of a kind asks for what the values ask for in a row of this kind, in each
/// session that has rows of the kind.
pub fn asking_law()
    ensures { AskingLaw }
{}
