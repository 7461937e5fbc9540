// The laws of the graphs.

ghost use Rattle.pb_period.specs.Laws.{AgreeingLaw, ClosedGraphsLaw, GraphsLaw, PlainGraphsLaw, UntouchedLaw, WindowGraphsLaw};

use pb_book::{accepted_law, plain_law};
use pb_site::{days_law, plant_law};

/// The law that the names of accepted rows are distinct, that the names on any days are those of the graph of these days, and that
/// the graph of the design and that of each period that has one are within the limits.
pub fn graphs_law()
    ensures { GraphsLaw }
{
    plant_law();
    days_law();
    accepted_law();
}

/// The law that the graph of a window of accepted rows, if it has one, is within the limits.
pub fn window_graphs_law()
    ensures { WindowGraphsLaw }
{
    plant_law();
    accepted_law();
}

/// The law that the plain rows of accepted rows have the same graphs as the accepted rows, that of the design and those of any
/// days, and the same names: what was late, amended or struck is measured as if the file had been edited.
pub fn plain_graphs_law()
    ensures { PlainGraphsLaw }
{
    plain_law();
}

/// The law that a stored row which doesn't take out a period changes neither what is declared nor the graph of the period.
pub fn untouched_law()
    ensures { UntouchedLaw }
{}

/// The law that in a session of version 2 a stored declaration changes neither the graph of a closed period nor its names.
pub fn closed_graphs_law()
    ensures { ClosedGraphsLaw }
{}

/// The law that sessions which declare the same, and have the same live facts that touch a period, in whatever order, give the period
/// the same graph and the same names.
pub fn agreeing_law()
    ensures { AgreeingLaw }
{}
