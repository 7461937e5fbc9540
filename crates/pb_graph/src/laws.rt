// Laws of walks, of the nodes that they reach, of the parts that they make, of certificates, of balanced flow vectors and of groups.

ghost use Rattle.pb_graph.specs.Laws.{IsEquivalence, MoreStreamsLaw, ClosedSetLaw, SomeReachLaw, OneReachLaw, LabelsLaw, CertificateFormLaw};
ghost use Rattle.pb_graph.specs.BalanceLaws.{PricedSumLaw, BalancedSumLaw, BoundarySumLaw, CutLaw, CycleLaw, DeterminedLaw, CertificateLaw, OneClassLaw, EachClassLaw, BalancedButEnvLaw};
ghost use Rattle.pb_graph.specs.GroupLaws.{SomeGroupsLaw, NumberingLaw, FreeLaw, CrossingLaw};

/// Reaching is reflexive, symmetric and transitive, and each stream that may be taken joins its ends.
pub fn walks_law()
    ensures { IsEquivalence }
{}

/// A walk along fewer streams is also a walk along more.
pub fn more_streams_law()
    ensures { MoreStreamsLaw }
{}

/// No walk leads out of a set of nodes that no step leads out of.
pub fn closed_set_law()
    ensures { ClosedSetLaw }
{}

/// Whatever streams may be taken, the set of nodes that a node reaches exists and is unique.
pub fn reach_law()
    ensures some { SomeReachLaw }
    ensures one { OneReachLaw }
{}

/// Two nodes have the same label exactly when one reaches the other.
pub fn labels_law()
    ensures { LabelsLaw }
{}

/// A certificate that shows a stream's class refers only to nodes and streams of the graph.
pub fn certificate_form_law()
    ensures { CertificateFormLaw }
{}

/// A sum over the nodes of price times net flow is a sum over the streams, which is 0 if the flows balance.
pub fn priced_sum_law()
    ensures nodes { PricedSumLaw }
    ensures balanced { BalancedSumLaw }
{}

/// Flows that balance at every node except the environment balance at the environment too.
pub fn env_balance_law()
    ensures { BalancedButEnvLaw }
{}

/// Balanced flows enter a side as much as they leave it.
pub fn boundary_sum_law()
    ensures { BoundarySumLaw }
{}

/// A cut in which all streams but one are measured determines that one.
pub fn cut_law()
    ensures { CutLaw }
{}

/// A cycle in which all streams but one are unmeasured leaves that one free.
pub fn cycle_law()
    ensures { CycleLaw }
{}

/// A stream is determined exactly when its `from` end doesn't reach its `to` end over the other unmeasured streams, and free exactly when
/// it does.
pub fn determined_law()
    ensures { DeterminedLaw }
{}

/// A class that its certificate shows holds by meaning.
pub fn certificate_law()
    ensures { CertificateLaw }
{}

/// Each stream has a class, and only one.
pub fn one_class_law()
    ensures some { EachClassLaw }
    ensures one { OneClassLaw }
{}

/// Each graph has groups.
pub fn some_groups_law()
    ensures { SomeGroupsLaw }
{}

/// A graph has only one list of group numbers; the numbers are in the order of the least nodes of the groups, and none is left out.
pub fn numbering_law()
    ensures { NumberingLaw }
{}

/// The test of freedom by numbers agrees with the definition by walks.
pub fn free_law()
    ensures { FreeLaw }
{}

/// A stream with exactly one end in a group is measured, and a group has such a stream exactly when it has some variance.
pub fn crossing_law()
    ensures { CrossingLaw }
{}
