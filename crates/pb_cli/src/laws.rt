// Each input has one text for a run and one for a check, a run's own reports pass, and each made session has one summary.

ghost use Rattle.pb_cli.specs.Laws.{OneCheckTextLaw, OneRunTextLaw, OneSummaryLaw, OwnLaw, OwnReportsLaw, SomeCheckTextLaw, SomeRunTextLaw, SomeSummaryLaw};

use pb_audit::{findings_law, passed_law};
use pb_book::{accepted_law, asked_window_law, book_windows_law, named_law};
use pb_check::solved_law;
use pb_elim::{formed_law, one_study_law, solution_law, some_study_law};
use pb_make::period_law;
use pb_period::graphs_law;
use pb_readback::{join_law, passed_rows_law, row_text_law, row_words_law, study_rows_law};
use pb_session::{criticals_law, one_text_law, some_text_law};

/// The law that each input has one text of its run, for any options and in each form, so that what a run writes for it is
/// determined.
pub fn run_text_law()
    ensures some { SomeRunTextLaw }
    ensures one { OneRunTextLaw }
{
    one_text_law();
    some_text_law();
    accepted_law();
}

/// The law that each input has one text of its check, so that what a check writes for it is determined.
pub fn check_text_law()
    ensures some { SomeCheckTextLaw }
    ensures one { OneCheckTextLaw }
{
    findings_law();
}

/// The law that each stage of a study passes at the gap and the sweeps of the study.
pub fn own_law()
    ensures { OwnLaw }
{
    pb_elim::certified_law();
    solution_law();
    solved_law();
}

/// The law that the check of a run's own output in CSV finds nothing wrong, whatever session was run.
pub fn own_reports_law()
    ensures { OwnReportsLaw }
{
    join_law();
    study_rows_law();
    passed_rows_law();
    row_words_law();
    row_text_law();
    formed_law();
    own_law();
    criticals_law();
    named_law();
    accepted_law();
    book_windows_law();
    asked_window_law();
    findings_law();
    passed_law();
}

/// The law that a made session has at most one summary, which is therefore the same in each run.
pub fn one_summary_law()
    ensures { OneSummaryLaw }
{
    one_study_law();
}

/// The law that each made session has a summary.
pub fn some_summary_law()
    ensures { SomeSummaryLaw }
{
    some_study_law();
    graphs_law();
    accepted_law();
    period_law();
}
