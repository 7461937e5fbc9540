// How a table of columns is written.

// A column that takes no empty field.
macro_rules! column {
    ($key:expr, $holds:expr) => {
        Column {
            key: $key,
            holds: $holds,
            optional: false,
        }
    };
}

// A column that also takes an empty field.
macro_rules! optional {
    ($key:expr, $holds:expr) => {
        Column {
            key: $key,
            holds: $holds,
            optional: true,
        }
    };
}

// A column that takes one word.
macro_rules! word {
    ($key:expr, $word:expr) => {
        column!($key, Holds::Word(&[$word]))
    };
}

// A column of whole numbers from `lo` to `hi`.
macro_rules! number {
    ($key:expr, $lo:expr, $hi:expr) => {
        column!($key, Holds::Number { lo: $lo, hi: $hi })
    };
}

// A schema without a tail.
macro_rules! schema {
    ($($column:expr),+) => {
        Schema {
            columns: &[$($column),+],
            tail: &[],
        }
    };
}

pub(crate) use column;
pub(crate) use number;
pub(crate) use optional;
pub(crate) use schema;
pub(crate) use word;
