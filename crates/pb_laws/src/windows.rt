// What is proved of windows. The functions are empty: the contract of each is a law.

ghost use Rattle.pb_laws.specs.Between.{BetweenLaw};
ghost use Rattle.pb_laws.specs.WindowParts.{ContentsLaw, WindowMeasuresLaw, WindowPartsLaw};

use pb_book::accepted_law;

/// The law that in a window a period has the nodes and arcs of its own graph, with the same measurements, and each tank opens and closes
/// on the same days as there.
pub fn window_parts_law()
    ensures parts { WindowPartsLaw }
    ensures measured { WindowMeasuresLaw }
{}

/// The law that what a tank holds after a period, less what it holds before it, is what the period measured of its inventory.
pub fn contents_law()
    ensures { ContentsLaw }
{}

/// The law that the periods of a window are all that begin from its first to its last, in order of days, and that each day of it is in
/// one of them.
pub fn between_law()
    ensures { BetweenLaw }
{
    accepted_law();
}
