// The text of a summary.

ghost use Rattle.std.specs.Prelude.{◌≡◌, ◌<◌, ◌≤◌, ◌-◌, ◌^◌, length, slice_get, take, ◌∷◌, [], IfOk, IfSome, IsSomeAnd, OnOk};
ghost use Rattle.pb_limits.specs.Limits.{most_gap, most_made_streams, most_sweeps};
ghost use Rattle.pb_study.specs.Options.{AreOptions};
ghost use Rattle.pb_book.specs.Rows.{periods_of};
ghost use Rattle.pb_period.specs.Days.{days_of};
ghost use Rattle.pb_period.specs.PeriodGraph.{assembly_of, period_graph, period_names};
ghost use Rattle.pb_report.specs.Form.{text_in};
ghost use Rattle.pb_report.specs.Names.{name_at};
ghost use Rattle.pb_report.specs.Over.{over_row};
ghost use Rattle.pb_report.specs.Summary.{summary_row};
ghost use Rattle.pb_report.specs.declared.form.Form.TheVariants.{Csv};
ghost use Rattle.pb_make.specs.Plant.{least_streams};
ghost use Rattle.pb_session.specs.Session.{new_session, state_after_all};
ghost use Rattle.pb_cli.specs.Summary.{IsSummaryText, SumsUpBy, made_options};

use pb_book::Book;
use pb_make::make;
use pb_period::Assembly;
use pb_report::{Form, write_over, write_summary};
use pb_rows::Rows;
use pb_session::Session;
use pb_study::{Options, Stage};
use std::alloc::{AllocError, Global};

/// The text of the summary of the session made from a number, with this many streams: the one row that sums up the study of its period,
/// without tests, for this gap (thousandths of a standard deviation) and at most this many sweeps; or the row that names the first stream
/// whose total is too great to be studied. Fails only if memory runs out.
pub fn summary(
    alloc: Global,
    number: u32,
    streams: u32,
    gap: u32,
    sweeps: u32,
) -> Result<Vec<u8>, AllocError>
    requires least { least_streams ≤ streams }
    requires most { streams ≤ most_made_streams }
    requires some_gap { 1 ≤ gap }
    requires greatest_gap { gap ≤ most_gap }
    requires greatest_sweeps { sweeps ≤ most_sweeps }
    ensures text { IfOk result (λ text. IsSummaryText number streams gap sweeps text.items) }
{
    let rows = Rows::of(alloc, &make(alloc, number, streams)?)?;
    let session = stored(alloc, &rows, made_options(gap, sweeps))?;
    summed(alloc, number, streams, rows.len(), &session)
}

// What the study is asked for.
fn made_options(gap: u32, sweeps: u32) -> Options
    ensures { result ≡ made_options gap sweeps }
{
    Options {
        gap,
        sweeps,
        tests: false,
        eliminate: 0,
    }
}

// A session that has taken all these records except the last one, which asks for the report.
fn stored(alloc: Global, rows: &Rows, options: Options) -> Result<Session, AllocError>
    requires options { AreOptions options }
    requires some { 1 ≤ length rows.now }
    requires few { length rows.now < 2 ^ 32 }
    ensures { IfOk result (λ session. session.state
        ≡ state_after_all (new_session options Csv) 1 (take (length rows.now - 1) rows.now)) }
{
    let mut session = Session::new(alloc, options, Form::Csv);
    let mut out = Vec::new(alloc);
    for i in 0..rows.len() - 1 {
        session.row(i as u32 + 1, rows.at(i), &mut out)?;
    }
    Ok(session)
}

// The row that sums up the study of the first period of a session.
fn summed(
    alloc: Global,
    number: u32,
    streams: u32,
    rows: usize,
    session: &Session,
) -> Result<Vec<u8>, AllocError>
    requires { 0 < length (periods_of session.now.state.rows) }
    ensures { IfOk result (λ text. IsSomeAnd (slice_get (periods_of session.now.state.rows) 0)
        (λ period. SumsUpBy number streams rows session.now.state period
        (assembly_of session.now.state.rows (days_of period)) text.items)) }
{
    match session.first_stage(0) {
        Ok(stage) => stage_text(alloc, number, streams, rows, &stage),
        Err(Assembly::Over(j)) => stream_text(alloc, session.book(), j),
        Err(Assembly::NoMemory) => Err(AllocError),
    }
}

// The row that sums up a stage.
fn stage_text(
    alloc: Global,
    number: u32,
    streams: u32,
    rows: usize,
    stage: &Stage,
) -> Result<Vec<u8>, AllocError>
    ensures { IfOk result (λ text. text.items
        ≡ text_in Csv (summary_row number streams rows stage.now ∷ [])) }
{
    let mut text = Vec::new(alloc);
    write_summary(alloc, number, streams, rows, stage, &mut text)?;
    Ok(text)
}

// The row that names a stream whose total in the first period is too great to be studied.
fn stream_text(alloc: Global, book: &Book, j: u32) -> Result<Vec<u8>, AllocError>
    requires period { 0 < length (periods_of book.now) }
    requires stream { IfSome (slice_get (periods_of book.now) 0)
        (λ period. j < length (period_graph book.now (days_of period)).streams) }
    ensures { IfOk result (λ text. IfSome (slice_get (periods_of book.now) 0) (λ period.
        text.items ≡ text_in Csv (over_row period.name
        (name_at (period_names book.now (days_of period)).streams j) ∷ []))) }
{
    let names = pb_period::names(alloc, book, 0)?;
    let period = book.period(0).name;
    let mut text = Vec::new(alloc);
    write_over(
        alloc,
        &period,
        names.streams.at(j as usize),
        Form::Csv,
        &mut text,
    )?;
    Ok(text)
}
