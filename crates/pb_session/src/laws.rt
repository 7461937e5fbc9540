// Each record adds one text to the output, and each session has one text.

ghost use Rattle.pb_session.specs.Agreeing.{AgreeingReportLaw, ClosingLaw};
ghost use Rattle.pb_session.specs.Edited.{EditedFileLaw};
ghost use Rattle.pb_session.specs.KeptLaws.{FewKeptLaw, KeptTextLaw, OneKeptLaw, SomeKeptLaw};
ghost use Rattle.pb_session.specs.Laws.{CriticalsLaw, OneTextLaw, OneSessionTextLaw, SomeTextLaw, SomeSessionTextLaw};
ghost use Rattle.pb_session.specs.Renumbered.{LeftOutLaw, RenumberedLaw};
ghost use Rattle.pb_session.specs.VersionOne.{FirstPlantLaw, FirstRefusalLaw, FirstSessionTextLaw, FirstTextLaw, FirstWindowLaw};

use pb_advise::{cheapest_law, one_advice_law, some_advice_law};
use pb_book::{
    accepted_law, book_windows_law, grades_law, meter_costs_law, plain_law, ranges_law,
    version_one_law,
};
use pb_classify::{one_classification_law, some_classification_law};
use pb_elim::{
    certified_law, formed_law, least_throughout_law, one_study_law, some_study_law, tested_law,
};
use pb_grades::component_form_law;
use pb_period::{agreeing_law, graphs_law, plain_graphs_law, window_graphs_law};

/// The law that what a record adds to the output is one text, and so is the output of a session: the classes of a design and their
/// certificates leave no choice, nor does the advice for a graph at its costs, nor the study of a graph.
pub fn one_text_law()
    ensures of_a_record { OneTextLaw }
    ensures of_a_session { OneSessionTextLaw }
{
    one_classification_law();
    one_advice_law();
    one_study_law();
}

/// The law that each record adds some text to the output, and that each session has some text: accepted rows make process graphs,
/// also for windows, and each of these has classes with certificates, advice at any costs, a study, and the component graphs of its
/// study.
pub fn some_text_law()
    ensures of_a_record { SomeTextLaw }
    ensures of_a_session { SomeSessionTextLaw }
{
    some_classification_law();
    some_advice_law();
    cheapest_law();
    meter_costs_law();
    some_study_law();
    certified_law();
    least_throughout_law();
    tested_law();
    formed_law();
    component_form_law();
    criticals_law();
    graphs_law();
    book_windows_law();
    window_graphs_law();
    grades_law();
    accepted_law();
}

/// The law that a report after edits is the report of the edited file. An edited file has one record for each plain row: the
/// declarations, periods, critical values and assays, and then the live facts with their last values. None of its records is
/// refused, and a report, a window, the balance of a component, a design or advice after them has the same text as after the rows of
/// the session, with any options and in either form.
pub fn edited_file_law()
    ensures { EditedFileLaw }
{
    plain_law();
    plain_graphs_law();
}

/// The law that a report depends on what is declared and on the live facts that touch its period, in whatever order, and on nothing
/// else that was stored: not on facts that touch other periods alone, on how facts came by their values, or on what is closed.
pub fn agreeing_report_law()
    ensures agreeing { AgreeingReportLaw }
    ensures closing { ClosingLaw }
{
    agreeing_law();
    plain_graphs_law();
}

/// The law that blank and refused records may be left out of a session: every other record has the same answer and the same text, but
/// for the numbers of records, which only refusals and histories print. What a session says depends on what its rows do, and not on
/// their numbers.
pub fn left_out_law()
    ensures renumbered { RenumberedLaw }
    ensures left_out { LeftOutLaw }
{
    accepted_law();
    plain_law();
    plain_graphs_law();
}

/// The law that a session writes what it wrote before version 2 existed, unless one of its records is accepted as the one that
/// states it. Records have the answers of version 1. The graph of a period is that of the whole plant, including units and tanks
/// that no stream joins, with the names of the plant. What is measured, refused or listed in a history doesn't depend on days of
/// service, as neither these nor boundaries are declared. A window uses the same plant, and what the same days measured; its text
/// is as in all sessions.
pub fn version_one_text_law()
    ensures of_a_record { FirstTextLaw }
    ensures of_a_session { FirstSessionTextLaw }
    ensures plant { FirstPlantLaw }
    ensures refusals { FirstRefusalLaw }
    ensures windows { FirstWindowLaw }
{
    version_one_law();
}

/// The law that the critical values of accepted rows keep their limits.
pub fn criticals_law()
    ensures { CriticalsLaw }
{
    ranges_law();
}

/// The law of what a session keeps: its records, whatever they are, determine for which periods it keeps a study, and these are
/// never too many. What is kept changes no text: sessions with the same rows, options and form add the same text for a record.
pub fn kept_law()
    ensures one { OneKeptLaw }
    ensures some { SomeKeptLaw }
    ensures few { FewKeptLaw }
    ensures texts { KeptTextLaw }
{
    one_study_law();
    some_study_law();
    graphs_law();
    accepted_law();
    one_text_law();
}
