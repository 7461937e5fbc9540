//! The limits of a plant, of its book and of a run. Each is one number in a definition, which clauses cite,
//! and a constant of the code that equals it.
#![tactic(auto)]

ghost use Rattle.pb_limits.specs.Laws.{AreCounts, AreDefaults, AreGraphRanges, AreRanges};

/// The most units and tanks of a plant.
pub const MOST_UNITS_AND_TANKS: usize = 1_000;

/// The most nodes of a process graph: units, tanks and the environment.
pub const MOST_NODES: u32 = 1_001;

/// The most streams of a process graph: declared streams and inventories of tanks.
pub const MOST_STREAMS: usize = 4_000;

/// The most streams of a process graph of a session of version 1.
pub const MOST_STREAMS_OF_VERSION_1: usize = 2_000;

/// The most streams of a made session.
pub const MOST_MADE_STREAMS: u32 = 2_000;

/// The most boundaries of a plant, not counting the environment.
pub const MOST_BOUNDARIES: usize = 100;

/// The most points of the strapping table of a tank.
pub const MOST_POINTS: usize = 2_000;

/// The most periods of a book.
pub const MOST_PERIODS: usize = 1_000;

/// The most periods of a window.
pub const MOST_PERIODS_OF_WINDOW: usize = 31;

/// The most facts of a book: readings, transfers and dips.
pub const MOST_FACTS: usize = 200_000;

/// The most days of a period.
pub const MOST_DAYS_OF_PERIOD: i32 = 100;

/// The most days of a transfer.
pub const MOST_DAYS_OF_TRANSFER: i32 = 366;

/// The most bytes of the input of a run.
pub const MOST_BYTES: usize = 67_108_864;

/// The highest level of a tank, in millimetres.
pub const MOST_LEVEL: i64 = 100_000;

/// The greatest volume of a strapping table, in millilitres.
pub const MOST_VOLUME: i64 = 1_000_000_000_000;

/// The greatest density, in grams per cubic metre.
pub const MOST_DENSITY: i64 = 20_000_000;

/// The greatest amount of a row, in grams, either way.
pub const MOST_GRAMS: i64 = 10_000_000_000_000;

/// The greatest variance of a row, in squared grams.
pub const MOST_ROW_VARIANCE: i128 = 10_000_000_000_000_000_000;

/// The greatest grade of a component, in parts per million: the stream is the component alone.
pub const MOST_GRADE: i64 = 1_000_000;

/// The greatest variance of a grade, in squares of parts per million.
pub const MOST_GRADE_VARIANCE: i64 = 100_000_000;

/// The greatest critical value, in thousandths.
pub const MOST_CRITICAL: i64 = 1_000_000_000_000;

/// The most degrees of freedom that a critical value can have.
pub const MOST_FREEDOM: u32 = 2_000;

/// The greatest measured value of a process graph, in grams, either way.
pub const MOST_VALUE: u128 = 1_000_000_000_000_000;

/// The greatest variance of a process graph, in squared grams.
pub const MOST_VARIANCE: i128 = 10_000_000_000_000_000_000_000;

/// The widest gap that may be asked of a study, in thousandths of a standard deviation.
pub const MOST_GAP: u32 = 1_000_000;

/// The most sweeps that may be allowed to a study.
pub const MOST_SWEEPS: u32 = 100_000;

/// The most rounds of elimination that may be asked of a study.
pub const MOST_ROUNDS: u32 = 20;

/// The gap of a study if none is asked for, in thousandths of a standard deviation.
pub const DEFAULT_GAP: u32 = 10;

/// The sweeps that are allowed to a study if no number is given.
pub const DEFAULT_SWEEPS: u32 = 5_000;

/// The number that a session is made from if none is given.
pub const DEFAULT_NUMBER: u32 = 1;

/// The streams of a made session if no number is given.
pub const DEFAULT_STREAMS: u32 = 300;

/// Each constant equals the number in its definition.
pub fn limits_law()
    ensures counts { AreCounts }
    ensures ranges { AreRanges }
    ensures graph_ranges { AreGraphRanges }
    ensures defaults { AreDefaults }
{}
