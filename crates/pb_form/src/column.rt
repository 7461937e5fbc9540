// What a column takes, and the columns of a kind of rows.

/// What a column takes.
#[derive(Clone, Copy)]
pub enum Holds {
    /// One of these words. A column of one word identifies the kind of its row.
    Word(&'static [&'static str]),
    Name,
    Reason,
    /// A whole number from `lo` to `hi`, both included.
    Number { lo: i128, hi: i128 },
    Date,
    /// A list of any bytes, which are kept as they are.
    Items,
}

/// A column: its key, and what it takes. An optional column also takes an empty field.
#[derive(Clone, Copy)]
pub struct Column {
    pub key: &'static str,
    pub holds: Holds,
    pub optional: bool,
}

/// The columns of a kind of rows, the first of which holds the kind's word. The columns of `tail` are repeated after them, as often
/// as a row has fields for.
#[derive(Clone, Copy)]
pub struct Schema {
    pub columns: &'static [Column],
    pub tail: &'static [Column],
}
