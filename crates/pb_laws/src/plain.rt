// What is proved of plain rows. The function is empty: its contract is a law.

ghost use Rattle.pb_laws.specs.PlainText.{SomePlainTextLaw};

use pb_book::plain_law;
use pb_form::{one_kind_law, text_law};
use pb_kinds::asking_law;
use pb_rows::written_rows_law;

/// The law that the plain rows of a session can always be written: each of its rows has a record, and a text has these records.
pub fn some_plain_text_law()
    ensures { SomePlainTextLaw }
{
    plain_law();
    text_law();
    one_kind_law();
    asking_law();
    written_rows_law();
}
