// The certificate of a class, as values of a row.

ghost use Rattle.std.specs.Prelude.{◌≡◌, ◌<◌, ◌↔◌, length, string_bytes, IfOk, IfSome, IsTrue};
ghost use Rattle.pb_graph.specs.WellFormed.{IsWitnessWithin};
ghost use Rattle.pb_graph.specs.declared.records.Witness.TheVariants.{Cut};
ghost use Rattle.pb_report.specs.Certificate.{certificate_values};
ghost use Rattle.pb_report.specs.Given.{given_certificate};
ghost use Rattle.pb_report.specs.Kept.{IsOf};
ghost use Rattle.pb_report.specs.Names.{IsNamed};
ghost use Rattle.pb_report.specs.Pieces.{parts_text, side_text};

use crate::parts;
use pb_choices::{Shape, witness_shape};
use pb_graph::{Graph, List, Member, Witness};
use pb_rows::Names;
use std::alloc::{AllocError, Global};
use std::marker::Model;

/// A certificate: its shape, and its side and its parts as texts.
#[derive(Drop)]
pub struct Certificate {
    pub shape: Shape,
    pub side: String,
    pub parts: String,
}

impl Certificate {
    /// The certificate of a class.
    #[tactic(auto, using(crate::proofs::PieceLemmas::as_parts))]
    pub fn of(
        alloc: Global,
        names: &Names,
        graph: &Graph,
        witness: &Witness,
    ) -> Result<Certificate, AllocError>
        requires named { IsNamed names.now graph.now }
        requires within { IsWitnessWithin graph.now witness.now }
        ensures { IfOk result (λ certificate. given_certificate certificate
            ≡ certificate_values names.now witness.now) }
    {
        Ok(Certificate {
            shape: witness_shape(witness),
            side: side_text(alloc, names, graph, witness)?,
            parts: parts_text(alloc, names, graph, witness)?,
        })
    }
}

// The names of the nodes in a cut's side; nothing for a cycle.
fn side_text(
    alloc: Global,
    names: &Names,
    graph: &Graph,
    witness: &Witness,
) -> Result<String, AllocError>
    requires named { IsNamed names.now graph.now }
    requires within { IsWitnessWithin graph.now witness.now }
    ensures { IfOk result (λ text. string_bytes text ≡ side_text names.now.nodes witness.now) }
{
    match witness {
        Witness::Cut { side, .. } => parts::side_text(alloc, &names.nodes, side.as_slice()),
        Witness::Cycle { .. } => Ok(String::new(alloc)),
    }
}

// The members of a cut, or the steps of a cycle.
fn parts_text(
    alloc: Global,
    names: &Names,
    graph: &Graph,
    witness: &Witness,
) -> Result<String, AllocError>
    requires named { IsNamed names.now graph.now }
    requires within { IsWitnessWithin graph.now witness.now }
    ensures { IfOk result (λ text. string_bytes text ≡ parts_text names.now.streams witness.now) }
{
    match witness {
        Witness::Cut { members, .. } => {
            parts::members_text(alloc, &names.streams, members.as_slice())
        }
        Witness::Cycle { steps } => parts::steps_text(alloc, &names.streams, steps.as_slice()),
    }
}

/// Certificates with the names of a graph's nodes and streams. The certificate of the last stream from each node is kept, since most
/// streams from one node have the same certificate.
#[derive(Drop)]
pub struct Certificates<'a> {
    names: &'a Names,
    kept: Vec<Option<Kept<'a>>>,
}

// A certificate that is kept, and what it was made from.
#[derive(Drop)]
struct Kept<'a> {
    witness: &'a Witness,
    certificate: Certificate,
}

impl<'a> Model for Certificates<'a> {
    ghost use Rattle.pb_rows.specs.declared.name.Names.{Names};
    ghost use Rattle.pb_report.specs.Kept.{AreKept};

    ghost Value = { Names };

    ghost view = { λ a. a.names.now };

    ghost invariant = { λ a. AreKept a.names.now a.kept.items };
}

impl<'a> Certificates<'a> {
    /// No certificate is kept yet.
    pub fn new(alloc: Global, names: &'a Names) -> Result<Certificates<'a>, AllocError>
        ensures { IfOk result (λ certificates. certificates ≡ names.now) }
    {
        let mut kept = Vec::new(alloc);
        for _ in 0..names.nodes.len() {
            kept.push(None)?;
        }
        Ok(Certificates { names, kept })
    }

    /// The certificate of the class of a stream from a node: the kept certificate of the node, if it was made from an equal witness.
    pub fn take(
        &mut self,
        alloc: Global,
        graph: &Graph,
        node: usize,
        witness: &Witness,
    ) -> Result<Certificate, AllocError>
        requires node { node < length self.old.nodes }
        requires named { IsNamed self.old graph.now }
        requires within { IsWitnessWithin graph.now witness.now }
        ensures names { self.new ≡ self.old }
        ensures certificate { IfOk result (IsOf self.old witness.now) }
    {
        if let Some(kept) = self.take_kept(node) {
            if is_same_cut(kept.witness, witness) {
                return Ok(kept.certificate);
            }
        }
        Certificate::of(alloc, self.names, graph, witness)
    }

    // Takes the certificate that is kept at a node.
    fn take_kept(&mut self, node: usize) -> Option<Kept<'a>>
        requires { node < length self.old.nodes }
        ensures names { self.new ≡ self.old }
        ensures certificate { IfSome result
            (λ kept. IsOf self.old kept.witness.now kept.certificate) }
    {
        self.kept[node].take()
    }

    /// Keeps the certificate of the class of a stream from a node.
    pub fn keep(&mut self, node: usize, witness: &'a Witness, certificate: Certificate)
        requires node { node < length self.old.nodes }
        requires certificate { IsOf self.old witness.now certificate }
        ensures { self.new ≡ self.old }
    {
        self.kept[node] = Some(Kept {
            witness,
            certificate,
        });
    }
}

// Whether two certificates of classes are the same cut.
fn is_same_cut(a: &Witness, b: &Witness) -> bool
    ensures { IsTrue result → a.now ≡ b.now }
{
    match a {
        Witness::Cut { side, members } => is_cut(b, side, members),
        Witness::Cycle { .. } => false,
    }
}

// Whether the certificate of a class is the cut with this side and these members.
#[tactic(auto, using(crate::proofs::SideLemmas::same_sides))]
fn is_cut(witness: &Witness, side: &List<bool>, members: &List<Member>) -> bool
    ensures { IsTrue result ↔ (Cut side.now members.now ≡ witness.now) }
{
    match witness {
        Witness::Cut {
            side: its_side,
            members: its_members,
        } => {
            side.as_slice() == its_side.as_slice()
                && are_same(members.as_slice(), its_members.as_slice())
        }
        Witness::Cycle { .. } => false,
    }
}

// Whether the members of two cuts are the same.
fn are_same(a: &[Member], b: &[Member]) -> bool
    ensures { IsTrue result ↔ (a.now ≡ b.now) }
{
    if a.len() != b.len() {
        return false;
    }
    for i in 0..a.len() {
        if a[i].stream != b[i].stream || a[i].sign != b[i].sign {
            return false;
        }
    }
    true
}
