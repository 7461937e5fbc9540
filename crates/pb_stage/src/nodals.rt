// Nodal tests.

ghost use Rattle.std.specs.Prelude.{◌≡◌, ◌*◌, ◌^◌, ◌<◌, ◌≤◌, pos, ◌≤ℤ◌, nat_lt, unsigned_abs, length, All, IfOk, IfSome};
ghost use Rattle.pb_limits.specs.Limits.{most_critical, most_streams, most_value};
ghost use Rattle.pb_limits.specs.Ranges.{IsCriticalValue};
ghost use Rattle.pb_graph.specs.ProcessGraph.{IsProcessGraph, IsStream, IsWithinLimits};
ghost use Rattle.pb_graph.specs.Squares.{value_or_zero};
ghost use Rattle.pb_graph.specs.Groups.{entering, group_count};
ghost use Rattle.pb_study.specs.WellFormed.{IsNodalWithin};
ghost use Rattle.pb_graph.specs.Variance.{most_group_variance};
ghost use Rattle.pb_graph.specs.Grouping.{AreGroupsOf};
ghost use Rattle.pb_stage.specs.Verdicts.{nodal_verdict};
ghost use Rattle.pb_stage.specs.Laws.{IsNodalNumber};
ghost use Rattle.pb_stage.specs.Nodal.{AreNodalTests, crossing_value, group_net, most_group_net, nodal_test, nodal_tests_below};

use pb_graph::{Graph, Groups, List, Meas, Stream};
use pb_study::{NodalTest, Verdict};
use std::alloc::{AllocError, Global};

// A measured value, or 0 if there is none.
fn value_or_zero(meas: Option<Meas>) -> i128
    requires { IfSome meas (λ m. unsigned_abs m.value ≤ most_value) }
    ensures value { result ≡ value_or_zero meas }
    ensures within { unsigned_abs result ≤ most_value }
{
    match meas {
        None => 0,
        Some(meas) => meas.value,
    }
}

// What a flow brings into a set of nodes, by which ends of its stream are in it.
fn entering(from_in: bool, to_in: bool, flow: i128) -> i128
    requires { unsigned_abs flow ≤ most_value }
    ensures value { result ≡ entering from_in to_in flow }
    ensures within { unsigned_abs result ≤ most_value }
{
    if to_in {
        if from_in { 0 } else { flow }
    } else if from_in {
        -flow
    } else {
        0
    }
}

// What the measured value of a stream brings into a group.
fn crossing_value(numbers: &[u32], group: u32, stream: &Stream) -> i128
    requires ends { IsStream (length numbers.now) stream.now }
    requires limits { IsWithinLimits stream.now }
    ensures value { result ≡ crossing_value numbers.now group stream.now }
    ensures within { unsigned_abs result ≤ most_value }
{
    let from_in = numbers[stream.from as usize] == group;
    let to_in = numbers[stream.to as usize] == group;
    entering(from_in, to_in, value_or_zero(stream.meas))
}

// The net flow of a group by the measured values.
fn group_net(numbers: &[u32], group: u32, streams: &[Stream]) -> i128
    requires few { length streams.now ≤ most_streams }
    requires ends { All (IsStream (length numbers.now)) streams.now }
    requires limits { All IsWithinLimits streams.now }
    ensures value { result ≡ group_net numbers.now group streams.now }
    ensures within { unsigned_abs result ≤ most_group_net }
{
    let mut total = 0;
    for stream in streams {
        total += crossing_value(numbers, group, stream);
    }
    total
}

// Whether a thousand times the square of a net flow is above a critical value times a variance.
fn is_above(net: u128, variance: u128, critical: u128) -> bool
    requires net { net ≤ most_group_net }
    requires variance { variance ≤ most_group_variance }
    requires critical { critical ≤ most_critical }
    ensures { result ≡ nat_lt (critical * variance) (1000 * (net * net)) }
{
    net * net > critical * variance / 1_000
}

/// The verdict of a nodal test on a net flow in grams and its variance, by a critical value in thousandths.
pub fn nodal_verdict(net: i128, variance: i128, critical: Option<i64>) -> Verdict
    requires net { unsigned_abs net ≤ most_group_net }
    requires positive { pos 0 ≤ℤ variance }
    requires variance { variance ≤ℤ pos most_group_variance }
    requires critical { IfSome critical IsCriticalValue }
    ensures { result ≡ nodal_verdict net variance critical }
{
    let Some(critical) = critical else {
        return Verdict::NoCritical;
    };
    if is_above(
        net.unsigned_abs(),
        variance.unsigned_abs(),
        critical.unsigned_abs() as u128,
    ) {
        Verdict::Reject
    } else {
        Verdict::Accept
    }
}

/// The nodal test of a group of nodes, named by its least node: the net flow of the measured values in grams, and its variance.
pub fn nodal(graph: &Graph, groups: &Groups, group: u32, critical: Option<i64>) -> NodalTest
    requires groups { AreGroupsOf graph.now groups.now }
    requires within { group < group_count groups.now.group }
    requires critical { IfSome critical IsCriticalValue }
    ensures value { result ≡ nodal_test groups.now.group graph.now.streams critical group }
    ensures within { IsNodalWithin graph.now result }
{
    let streams = graph.streams();
    let net = group_net(groups.numbers(), group, streams);
    let variance = groups.variance(group);
    NodalTest {
        node: groups.least(group),
        net,
        variance,
        critical,
        verdict: nodal_verdict(net, variance, critical),
    }
}

// The nodal tests of the free groups of a graph, in order.
fn free_tests(
    alloc: Global,
    graph: &Graph,
    groups: &Groups,
    critical: Option<i64>,
) -> Result<List<NodalTest>, AllocError>
    requires limits { IsProcessGraph graph.now }
    requires groups { AreGroupsOf graph.now groups.now }
    requires critical { IfSome critical IsCriticalValue }
    ensures value { IfOk result (λ tests. tests ≡ nodal_tests_below groups.now.group
        graph.now.streams critical (group_count groups.now.group)) }
    ensures within { IfOk result (All (IsNodalWithin graph.now)) }
{
    let mut tests = List::new(alloc);
    for group in 0..groups.count() {
        if groups.free(group) {
            tests.push(nodal(graph, groups, group, critical))?;
        }
    }
    Ok(tests)
}

/// The nodal test of each group of nodes that can be tested, in order.
pub fn nodal_tests(
    alloc: Global,
    graph: &Graph,
    critical: Option<i64>,
) -> Result<List<NodalTest>, AllocError>
    requires critical { IfSome critical IsCriticalValue }
    ensures tests { IfOk result (AreNodalTests graph.now critical) }
    ensures within { IfOk result (All (IsNodalWithin graph.now)) }
    ensures numbers { IfOk result (All IsNodalNumber) }
{
    let groups = Groups::of(alloc, graph)?;
    free_tests(alloc, graph, &groups, critical)
}
