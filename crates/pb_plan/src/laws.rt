// What is proved of the definitions alone. The functions are empty: the contract of each is a law.

ghost use Rattle.pb_plan.specs.Laws.{WindowFormLaw, WindowLaw, WindowNamesLaw, WindowPlacesLaw};

/// Each node of a window is one of the plant in a period, and each stream is the flow of an arc in a period or what a tank holds
/// between two.
pub fn window_law()
    ensures { WindowLaw }
{}

/// A window has the form of a graph: each of its streams joins two of its nodes.
pub fn window_form_law()
    ensures { WindowFormLaw }
{}

/// The names of a window's nodes are names, and no two of them are the same; so are those of its streams.
pub fn window_names_law()
    ensures { WindowNamesLaw }
{}

/// With names of a plant and of periods, one for each, each node and stream of their window finds its names.
pub fn window_places_law()
    ensures { WindowPlacesLaw }
{}
