// Laws about rows that are written: that reports read back, and that other rows are skipped.

ghost use Rattle.pb_readback.specs.Written.{PassedRowsLaw, RowTextLaw, RowWordsLaw, StudyRowsLaw, StudyTextLaw};

use pb_choices::word_tables_law;
use pb_form::{output_word_law, text_law};
use pb_rows::{number_text_law, written_rows_law};

/// The law that the rows of a study, as they are written in CSV, read back as its stages: one block for each, in order, with the
/// period, the round, the gap, the sweeps, the names and the stage itself.
pub fn study_rows_law()
    ensures { StudyRowsLaw }
{
    text_law();
    word_tables_law();
    number_text_law();
}

/// The law that rows of the kinds that are skipped between blocks are skipped, whatever their values are.
pub fn passed_rows_law()
    ensures { PassedRowsLaw }
{}

/// The law that rows of any kinds, and the rows of a study, begin with a word, so that they read back from their text in CSV.
pub fn row_words_law()
    ensures { RowWordsLaw }
{
    output_word_law();
}

/// The law that rows which begin with a word read back from their text in CSV.
pub fn row_text_law()
    ensures { RowTextLaw }
{
    written_rows_law();
}

/// The law that the text of a study in CSV reads back as its stages.
pub fn study_text_law()
    ensures { StudyTextLaw }
{
    row_text_law();
    row_words_law();
    study_rows_law();
}
