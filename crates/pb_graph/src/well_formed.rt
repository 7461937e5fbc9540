// The test of the form of certificates.

ghost use Rattle.std.specs.Prelude.{◌≡◌, ◌↔◌, All, IsTrue};
ghost use Rattle.pb_graph.specs.WellFormed.{IsMember, IsStep, IsWitnessWithin};

use crate::graph::Graph;
use crate::records::{Member, Step, Witness};

impl Witness {
    /// Whether the certificate refers only to nodes and streams of the graph, and a side has one item for each node.
    pub fn is_within(&self, graph: &Graph) -> bool
        ensures { IsTrue result ↔ IsWitnessWithin graph.now self.now }
    {
        match self {
            Witness::Cut { side, members } => {
                side.len() == graph.nodes() as usize && are_members(graph, members.as_slice())
            }
            Witness::Cycle { steps } => are_steps(graph, steps.as_slice()),
        }
    }
}

// Whether a member is a stream of the graph, with a sign.
fn is_member(graph: &Graph, member: &Member) -> bool
    ensures { IsTrue result ↔ IsMember graph.now member.now }
{
    member.stream < graph.len() && (member.sign == 1 || member.sign == -1)
}

// Whether each member is a stream of the graph, with a sign.
fn are_members(graph: &Graph, members: &[Member]) -> bool
    ensures { IsTrue result ↔ All (IsMember graph.now) members.now }
{
    members.iter().all(|member| is_member(graph, member))
}

// Whether each step goes along a stream of the graph.
fn are_steps(graph: &Graph, steps: &[Step]) -> bool
    ensures { IsTrue result ↔ All (IsStep graph.now) steps.now }
{
    steps.iter().all(|step| step.stream < graph.len())
}
