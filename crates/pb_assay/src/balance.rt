// The component graph of a period of a book.

ghost use Rattle.std.specs.Prelude.{◌≡◌, ◌≢◌, ◌<◌, length, slice_get, Err, IfErr, IfOk, IfSome};
ghost use Rattle.pb_book.specs.Rows.{periods_of};
ghost use Rattle.pb_period.specs.PeriodGraph.{IsStreamOfGraph};
ghost use Rattle.pb_assay.specs.Balance.{HasCountsOf, IsGraphAt, component_in};

use pb_book::Book;
use pb_grades::{ComponentFault, component_graph};
use pb_graph::Graph;
use pb_period::{Assembly, names};
use pb_rows::Name;
use pb_study::Stage;
use std::alloc::Global;

/// The component graph of the period at a place, given the graph of the period and the last stage of its study: each stream of the graph
/// that has an assay of the component in the period, and isn't unobservable in the stage, is measured by what its printed flow carries.
/// `Over` names the first stream to be measured whose flow is above 10^15 grams either way, or whose component has a variance above 10^22
/// squared grams.
pub fn component(
    alloc: Global,
    book: &Book,
    component: &Name,
    period: u32,
    graph: &Graph,
    last: &Stage,
) -> Result<Graph, Assembly>
    requires there { period < length (periods_of book.now) }
    requires graph { IsGraphAt book.now period graph.now }
    requires stage { length last.now.streams ≡ length graph.now.streams }
    ensures answer { result ≢ Err Assembly.NoMemory
        → IfSome (slice_get (periods_of book.now) period) (λ one. result
        ≡ component_in book.now component.now one graph.now last.now) }
    ensures counts { IfOk result (HasCountsOf graph.now) }
    ensures over { IfErr result (IsStreamOfGraph graph.now) }
{
    let names = names(alloc, book, period)?;
    let grades = book.grades(alloc, component, period, names.streams.as_slice())?;
    match component_graph(alloc, graph, last.streams.as_slice(), &grades) {
        Ok(component) => Ok(component),
        Err(ComponentFault::Over(j)) => Err(Assembly::Over(j)),
        Err(ComponentFault::NoMemory) => Err(Assembly::NoMemory),
    }
}
