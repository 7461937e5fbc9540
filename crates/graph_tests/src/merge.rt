//! Groups of small graphs, worked by hand.

ghost use Rattle.std.specs.Prelude.{◌≤◌};
ghost use Rattle.pb_limits.specs.Limits.{most_nodes};

use pb_graph::{Groups, Stream};
use std::alloc::{AllocError, Global};
use std::process::Abort;
use test_graphs::{UNFIT, graph_of, metered, plain};

/// The number of each node's group, and for each group its least node, whether it is free, and its variance.
fn check(rt: &impl Abort, groups: &Groups, numbers: &[u32], rows: &[(u32, bool, i128)]) {
    assert_eq!(rt; groups.numbers(), numbers);
    assert_eq!(rt; groups.count() as usize, rows.len());
    for (k, row) in rows.iter().enumerate() {
        let k = k as u32;
        assert!(rt; k < groups.count(), "group {k}");
        assert_eq!(rt;
            (groups.least(k), groups.free(k), groups.variance(k)),
            *row,
            "group {k}"
        );
    }
}

// The groups of the graph of these streams.
fn groups_are(
    rt: &impl Abort,
    alloc: Global,
    nodes: u32,
    streams: &[Stream],
    numbers: &[u32],
    rows: &[(u32, bool, i128)],
) -> Result<(), AllocError>
    requires env { 1 ≤ nodes }
    requires most { nodes ≤ most_nodes }
{
    let g = graph_of(alloc, nodes, streams)?.expect(rt, UNFIT);
    let groups = Groups::of(alloc, &g)?;
    check(rt, &groups, numbers, rows);
    Ok(())
}

/// A part separate from the environment, a meter beside a plain stream, and streams that join groups in any order.
#[test]
fn groups(rt: HostRuntime) -> Result<(), AllocError> {
    let apart = [metered(1, 2, 0, 1), metered(2, 1, 0, 1)];
    let beside = [plain(1, 2), metered(1, 2, 0, 1)];
    let mixed = [
        plain(3, 5),
        metered(0, 3, 0, 7),
        plain(4, 2),
        metered(1, 5, 0, 11),
        plain(2, 5),
        metered(3, 4, 0, 100),
    ];
    let alloc = rt.alloc();
    let parts = [(0, false, 0), (1, true, 2), (2, true, 2)];
    groups_are(&rt, alloc, 3, &apart, &[0, 1, 2], &parts)?;
    let pair = [(0, false, 0), (1, false, 0)];
    groups_are(&rt, alloc, 3, &beside, &[0, 1, 1], &pair)?;
    let joined = [(0, false, 7), (1, true, 11), (2, true, 18)];
    groups_are(&rt, alloc, 6, &mixed, &[0, 1, 2, 2, 2, 2], &joined)
}
