// Laws: that numbers, dates and rows are read back from their texts.

ghost use Rattle.pb_rows.specs.Reason.{IsMostReason};
ghost use Rattle.pb_rows.specs.Texts.{HaveOneDateText, HaveOneNumberText, WrittenRowsReadBack};

/// The law that each whole number has one text, which is what is written for it, and that no other field writes it.
pub fn number_text_law()
    ensures { HaveOneNumberText }
{}

/// The law that a field writes a day exactly when it is the text `YYYY-MM-DD` of a date of the Gregorian calendar from
/// 1900 to 2199, and that each day of these years has one such text.
pub fn date_text_law()
    ensures { HaveOneDateText }
{}

/// The law that `Rows::of` reads back the rows that a `RowWriter` has ended as they were, of any lengths, if the first
/// field of each is one or more letters from `a` to `z`.
pub fn written_rows_law()
    ensures { WrittenRowsReadBack }
{}

/// The law that the constant for the length of a reason is the number in its definition.
pub fn reason_limit_law()
    ensures { IsMostReason }
{}
