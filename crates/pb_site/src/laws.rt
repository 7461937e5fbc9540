// The laws of the declared plant.

ghost use Rattle.pb_site.specs.Laws.{DaysLaw, GrowthLaw, PlantLaw, SamePartLaw};

/// If no declaration has a fault, given those before it, then numbers and days are in their ranges, names are distinct, each arc
/// leads from a node to another one, the numbers of nodes, boundaries and arcs are within the limits, and only the first
/// declaration can state the version.
pub fn plant_law()
    ensures { PlantLaw }
{}

/// One more declaration keeps the existing nodes and arcs, and the version unless it states one.
pub fn growth_law()
    ensures { GrowthLaw }
{}

/// The nodes on some days are nodes of the plant, in order; each arc on these days joins two of them; no two of these nodes have
/// the same name, and no two of these arcs.
pub fn days_law()
    ensures { DaysLaw }
{}

/// A declaration that isn't in service on some days doesn't change the part of the plant on these days.
pub fn same_part_law()
    ensures { SamePartLaw }
{}
