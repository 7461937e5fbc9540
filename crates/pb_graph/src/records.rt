// Streams with their measurements, and what certificates are made of.

ghost use Rattle.std.specs.Prelude.{◌≡◌, IfOk};
ghost use Rattle.pb_graph.specs.ProcessGraph.{other_end};

use crate::list::List;
use std::alloc::{AllocError, Global};

/// A measured flow: its value in grams and the variance of its error in squared grams.
#[derive(Clone, Copy, Debug, PartialEq, Eq)]
pub struct Meas {
    pub value: i128,
    pub variance: i128,
}

/// An arc of the process graph, from one node to another, measured or not.
#[derive(Clone, Copy, Debug, PartialEq, Eq)]
pub struct Stream {
    pub from: u32,
    pub to: u32,
    pub meas: Option<Meas>,
}

impl Stream {
    /// The end that isn't this node.
    pub fn end_from(&self, node: u32) -> u32
        ensures { result ≡ other_end node self.now }
    {
        if self.to == node { self.from } else { self.to }
    }
}

/// A stream of a cut. The sign is 1 if the stream enters the side, and -1 if it leaves it.
#[derive(Clone, Copy, Debug, PartialEq, Eq)]
pub struct Member {
    pub stream: u32,
    pub sign: i8,
}

/// A step of a walk: along the stream's arrow, or against it.
#[derive(Clone, Copy, Debug, PartialEq, Eq)]
pub struct Step {
    pub stream: u32,
    pub forward: bool,
}

/// What the measurements say about a stream (Narasimhan and Jordache, chapter 3).
///
/// An unmeasured stream is observable if the measured flows determine it.
/// A measured one is redundant if the other measured flows determine it.
#[derive(Clone, Copy, Debug, PartialEq, Eq)]
pub enum Class {
    /// Unmeasured, and determined by the measured flows.
    Observable,
    /// Unmeasured, and left free by the measured flows.
    Unobservable,
    /// Measured, and determined by the other measured flows too.
    Redundant,
    /// Measured, and left free by the other measured flows.
    Nonredundant,
}

/// Why a stream has its class: a cut with its members in the order of the streams, or a cycle.
#[derive(Debug, Drop, PartialEq, Eq)]
pub enum Witness {
    /// A side, which has one item for each node, and the streams with exactly one end in it.
    Cut {
        side: List<bool>,
        members: List<Member>,
    },
    /// A closed walk.
    Cycle {
        steps: List<Step>,
    },
}

impl Witness {
    /// A copy of the certificate.
    pub fn copy(&self, alloc: Global) -> Result<Witness, AllocError>
        ensures value { IfOk result (λ copy. copy ≡ self.now) }
    {
        match self {
            Witness::Cut { side, members } => Ok(Witness::Cut {
                side: side.copy(alloc)?,
                members: members.copy(alloc)?,
            }),
            Witness::Cycle { steps } => Ok(Witness::Cycle {
                steps: steps.copy(alloc)?,
            }),
        }
    }
}

/// The class of a stream with its certificate.
#[derive(Debug, Drop, PartialEq, Eq)]
pub struct Classified {
    pub class: Class,
    pub witness: Witness,
}

impl Classified {
    /// A copy of the class with its certificate.
    pub fn copy(&self, alloc: Global) -> Result<Classified, AllocError>
        ensures value { IfOk result (λ copy. copy ≡ self.now) }
    {
        Ok(Classified {
            class: self.class,
            witness: self.witness.copy(alloc)?,
        })
    }
}
