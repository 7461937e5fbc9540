// Laws about shares and assays.

ghost use Rattle.std.specs.Prelude.{◌≡◌};
ghost use Rattle.pb_facts.specs.Assays.{most_assays};
ghost use Rattle.pb_facts.specs.declared.assays.TheConstants.{MOST_ASSAYS};
ghost use Rattle.pb_facts.specs.Share.{SharesLaw};

/// The law that shares add up: what falls on some days and what falls on the days after them make up what falls on all of these days,
/// and all days together have the whole total.
pub fn shares_law()
    ensures { SharesLaw }
{}

/// The law that the constant for the most assays is the number in its definition.
pub fn most_assays_law()
    ensures { MOST_ASSAYS ≡ most_assays }
{}
