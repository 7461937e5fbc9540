// What no clause says: that calls succeed if memory is ample. What periods measured is data, in examples/worked.

use pb_book::{Accepted, Book};
use pb_graph::Graph;
use pb_period::design;
use pb_rows::Rows;
use std::alloc::Global;
use std::test::Fail;

// The value and the variance that are measured of a stream of a graph.
fn measured(graph: &Graph, stream: u32) -> Option<(i128, i128)> {
    if stream >= graph.len() {
        return None;
    }
    let meas = graph.stream(stream).meas?;
    Some((meas.value, meas.variance))
}

// What a design measures of the first streams of a book once it has stored these rows.
fn ask(alloc: Global, book: &mut Book, rows: &Rows) -> Result<[Option<(i128, i128)>; 4], Fail> {
    for row in rows.iter() {
        if book.accept(0, row) != Ok(Accepted::Stored) {
            return Err("a row is not stored")?;
        }
    }
    let graph = design(alloc, book)?;
    Ok([
        measured(&graph, 0),
        measured(&graph, 1),
        measured(&graph, 2),
        measured(&graph, 3),
    ])
}

fn designed(alloc: Global, text: &[u8]) -> Result<[Option<(i128, i128)>; 4], Fail> {
    let rows = Rows::of(alloc, text)?;
    let mut book = Book::new(alloc);
    ask(alloc, &mut book, &rows)
}

#[test]
fn designs_measure_all_but_plain_streams(rt: HostRuntime) -> Result<(), Fail> {
    let text =
        b"unit,U\nunit,V\ntank,K,7\nstream,A,env,U,metered,3\nstream,B,U,V,plain,0\nstream,C,V,K,batch,5\n";
    assert_eq!(rt;
        designed(rt.alloc(), text)?,
        [Some((0, 7)), Some((0, 3)), None, Some((0, 5))]
    );
    Ok(())
}
