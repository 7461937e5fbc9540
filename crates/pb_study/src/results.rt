// The results of a study: streams, tests and stages, and what is asked of a study.

use pb_graph::{Classified, Graph, List};

/// The bounds of a reconciled flow, in grams: it is at least `lo` and at most `hi`.
#[derive(Clone, Copy, Debug, PartialEq, Eq)]
pub struct Bounds {
    pub lo: i128,
    pub hi: i128,
}

/// What a test says.
#[derive(Clone, Copy, Debug, PartialEq, Eq)]
pub enum Verdict {
    /// The limit is exceeded.
    Reject,
    /// The limit isn't exceeded.
    Accept,
    /// The bounds of the statistic leave it open.
    Undecided,
    /// No critical value was given.
    NoCritical,
    /// There is nothing to test.
    NoTest,
}

/// How many sweeps were done, and whether the gap was met.
#[derive(Clone, Copy, Debug, PartialEq, Eq)]
pub enum Solved {
    /// The gap was met after this many sweeps.
    Converged(u32),
    /// The gap wasn't met in this many sweeps, which were all that were allowed.
    Unconverged(u32),
}

/// A stream of a stage: its class with its certificate, its reconciled flow in grams, and two pairs of bounds of that flow. The first
/// holds in each balanced vector that is no worse than the flows (none if the stream is unobservable). The second is narrower and
/// holds in each least vector (none if the stream is unobservable, or if the stage has no least bounds).
#[derive(Debug, Drop, PartialEq, Eq)]
pub struct StreamResult {
    pub classified: Classified,
    pub flow: i128,
    pub bounds: Option<Bounds>,
    pub least: Option<Bounds>,
}

/// The global test. The critical value is in thousandths.
#[derive(Clone, Copy, Debug, PartialEq, Eq)]
pub struct GlobalTest {
    pub critical: Option<i64>,
    pub verdict: Verdict,
}

/// The test of the balance of a group of nodes, named by its least node: net flow in grams, variance in squared grams.
#[derive(Clone, Copy, Debug, PartialEq, Eq)]
pub struct NodalTest {
    pub node: u32,
    pub net: i128,
    pub variance: i128,
    pub critical: Option<i64>,
    pub verdict: Verdict,
}

/// The test of one measurement: how far the least weighted squares fall without it, in thousandths.
#[derive(Clone, Copy, Debug, PartialEq, Eq)]
pub struct MeasureTest {
    pub stream: u32,
    pub low: i128,
    pub high: Option<i128>,
    pub critical: Option<i64>,
    pub verdict: Verdict,
}

/// The tests of a stage.
#[derive(Debug, Drop, PartialEq, Eq)]
pub struct Tests {
    pub global: GlobalTest,
    pub nodal: List<NodalTest>,
    pub measure: List<MeasureTest>,
}

/// One stage of a study: a graph with its classes, reconciled flows, bounds, node prices (in units of 2^-56), the numbers `g`
/// and `h` of the gap, the degrees of freedom, and the weighted squares in thousandths.
#[derive(Debug, Drop)]
pub struct Stage {
    pub graph: Graph,
    pub streams: List<StreamResult>,
    pub prices: List<i128>,
    pub solved: Solved,
    pub g: u64,
    pub h: u32,
    pub dof: u32,
    pub low: i128,
    pub high: Option<i128>,
    pub tests: Option<Tests>,
}

/// A stream whose measurement was taken out as a suspect, with the low end of its drop.
#[derive(Clone, Copy, Debug, PartialEq, Eq)]
pub struct Taken {
    pub stream: u32,
    pub low: i128,
}

/// Why the serial elimination of suspects stopped.
#[derive(Clone, Copy, Debug, PartialEq, Eq)]
pub enum Stop {
    /// The global test accepts the stage.
    Accepted,
    /// The global test leaves the stage open.
    Undecided,
    /// A test that is to decide has no critical value.
    NoCritical,
    /// The stage has nothing to test.
    NoTest,
    /// No measurement is a suspect.
    NoSuspect,
    /// The rounds that were asked for are done.
    Spent,
}

/// A study: its stages, the suspects taken between them, and why the elimination stopped (none if no elimination was asked for).
#[derive(Debug, Drop)]
pub struct Study {
    pub stages: List<Stage>,
    pub taken: List<Taken>,
    pub stop: Option<Stop>,
}

/// What is asked of a study: the gap in thousandths of a standard deviation, the greatest number of sweeps, whether tests are
/// made, and how many rounds of elimination.
#[derive(Clone, Copy, Debug, PartialEq, Eq)]
pub struct Options {
    pub gap: u32,
    pub sweeps: u32,
    pub tests: bool,
    pub eliminate: u32,
}

/// The critical value of the global test for some degrees of freedom, in thousandths.
#[derive(Clone, Copy, Debug, PartialEq, Eq)]
pub struct CriticalRow {
    pub dof: u32,
    pub value: i64,
}

/// The critical values that were handed in, in thousandths.
#[derive(Debug, Drop, PartialEq, Eq)]
pub struct Critical {
    pub global: List<CriticalRow>,
    pub nodal: Option<i64>,
    pub measure: Option<i64>,
}
