// The window between two periods of a book.

ghost use Rattle.std.specs.Prelude.{◌≡◌, ◌≢◌, ◌<◌, length, slice_get, All, Err, IfErr, IfOk, Some};
ghost use Rattle.pb_plan.specs.Codes.{window_names};
ghost use Rattle.pb_plan.specs.Places.{HaveNames, window_places};
ghost use Rattle.pb_site.specs.Site.{names_of};
ghost use Rattle.pb_periods.specs.Windows.{names_of_periods};
ghost use Rattle.pb_book.specs.Rows.{declared_of, periods_of};
ghost use Rattle.pb_book.specs.Windows.{IsWindowAsked, OfEnds, window_between};
ghost use Rattle.pb_period.specs.WindowGraph.{periods_at};
ghost use Rattle.pb_window.specs.Between.{IsStreamBetween, IsNamedWindow, NamesAStreamBetween, named_between, places_between};

use pb_book::Book;
use pb_graph::{Graph, List};
use pb_period::{Assembly, assemble_window, names_of_periods};
use pb_plan::{Window, WindowPlace, stream_code, window_names, window_places};
use pb_rows::{Name, Names};
use std::alloc::{AllocError, Global};

/// The graph of the window from the period at one place to the period at another, which there is no cause to refuse, and the names of the
/// graph's nodes and streams; or the first stream whose value or variance is above the limits.
pub fn window(alloc: Global, book: &Book, first: u32, last: u32) -> Result<(Graph, Names), Assembly>
    requires { IsWindowAsked book.now first last }
    ensures answer { result ≢ Err Assembly.NoMemory
        → OfEnds book.now first last (λ one other. result ≡ named_between book.now one other) }
    ensures named { IfOk result IsNamedWindow }
    ensures over { IfErr result (NamesAStreamBetween book.now first last) }
{
    let periods = book.periods_between(alloc, first, last)?;
    let window = book.window(alloc, first, last)?;
    let names = window_names(alloc, &window)?;
    match assemble_window(alloc, book, &window, &periods) {
        Ok(graph) => Ok((graph, names)),
        Err(why) => Err(why),
    }
}

/// What the names of this window's nodes, except the environment, and then of its streams stand for.
pub fn places(
    alloc: Global,
    book: &Book,
    first: u32,
    last: u32,
) -> Result<List<WindowPlace>, AllocError>
    requires { IsWindowAsked book.now first last }
    ensures { IfOk result (λ places.
        OfEnds book.now first last (λ one other. places ≡ places_between book.now one other)) }
{
    let periods = book.periods_between(alloc, first, last)?;
    let window = book.window(alloc, first, last)?;
    places_of(alloc, book, &periods, &window)
}

/// The name of the stream at a place of this window, also of one that has no graph.
pub fn code_of(
    alloc: Global,
    book: &Book,
    first: u32,
    last: u32,
    stream: u32,
) -> Result<Name, AllocError>
    requires asked { IsWindowAsked book.now first last }
    requires there { IsStreamBetween book.now first last stream }
    ensures { IfOk result (λ code. OfEnds book.now first last (λ one other.
        slice_get (window_names (window_between book.now one other)).streams stream ≡ Some code)) }
{
    let window = book.window(alloc, first, last)?;
    stream_code(alloc, window.streams.at(stream as usize))
}

// What the names of a window of the periods at these places stand for: nodes and streams of the plant, each in one period.
fn places_of(
    alloc: Global,
    book: &Book,
    periods: &[u32],
    window: &Window,
) -> Result<List<WindowPlace>, AllocError>
    requires there { All (λ i. i < length (periods_of book.now)) periods.now }
    requires named { HaveNames (names_of (declared_of book.now))
        (names_of_periods (periods_at book.now periods.now)) window.now }
    ensures { IfOk result (λ places. places ≡ window_places (names_of (declared_of book.now))
        (names_of_periods (periods_at book.now periods.now)) window.now) }
{
    let plant = book.site().names()?;
    let periods = names_of_periods(alloc, book, periods)?;
    window_places(alloc, window, &plant, &periods)
}
