// The words of the columns of an output, each list in the order of the places that their values have.

/// The classes of a stream.
pub const CLASS_WORDS: &[&str] = &["observable", "unobservable", "redundant", "nonredundant"];

/// Whether a stream is measured.
pub const MEASURED_WORDS: &[&str] = &["yes", "no"];

/// The shapes of a certificate.
pub const SHAPE_WORDS: &[&str] = &["cut", "cycle"];

/// Whether the gap was met.
pub const STATE_WORDS: &[&str] = &["converged", "unconverged"];

/// The verdicts of a test.
pub const VERDICT_WORDS: &[&str] = &["reject", "accept", "undecided", "nocritical", "notest"];

/// Why the elimination stops.
pub const STOP_WORDS: &[&str] = &[
    "accepted",
    "undecided",
    "nocritical",
    "notest",
    "nosuspect",
    "spent",
];

/// Whether a period is closed.
pub const PERIOD_WORDS: &[&str] = &["closed", "open"];

/// The edits of a history.
pub const EDIT_WORDS: &[&str] = &["close", "late", "amend", "strike"];

/// Why a record is refused, in the order of the codes.
pub const CAUSE_WORDS: &[&str] = &[
    "kind",
    "fields",
    "name",
    "number",
    "date",
    "unknown",
    "duplicate",
    "order",
    "mismatch",
    "sealed",
    "closed",
    "range",
    "full",
];

/// What a check asks, in the order of the codes.
pub const TEST_WORDS: &[&str] = &[
    "class",
    "witness",
    "balance",
    "price",
    "box",
    "dof",
    "gap",
    "state",
    "bounds",
    "statistic",
    "nodal",
    "verdict",
    "least",
];

/// Why a record of a report can't be read, in the order of the codes.
pub const UNREAD_WORDS: &[&str] = &[
    "kind",
    "fields",
    "name",
    "number",
    "unknown",
    "duplicate",
    "word",
    "shape",
    "count",
    "env",
    "ended",
];
