// The state of a session.

ghost use Rattle.std.specs.Prelude.{◌≡◌, ◌≢◌, ◌<◌, ◌≤◌, ◌↔◌, ◌∷◌, [], None, length, slice_get, take, option_map, OnOk, OnErr, IfErr, IfOk, IfSome, IsSome, IsTrue, Contains, Err};
ghost use Rattle.pb_book.specs.declared.answer.Accepted.TheVariants.{Advise, Design, Stored};
ghost use Rattle.pb_book.specs.Answer.{Says, cause_code};
ghost use Rattle.pb_kinds.specs.Costs.{named_costs};
ghost use Rattle.pb_advise.specs.Choice.{AreCosts};
ghost use Rattle.pb_report.specs.Component.{component_row};
ghost use Rattle.pb_report.specs.Refusal.{refused_row};
ghost use Rattle.pb_book.specs.Rows.{periods_of};
ghost use Rattle.pb_book.specs.Windows.{IsWindowAsked, OfEnds};

use crate::classes::classes_in;
use crate::criticals::declared_critical;
use crate::history::history_of;
use crate::kept::{KeptStudy, drop_touched, last_stage, place_of, settle};
use pb_advise::advise;
use pb_book::{Accepted, Book, NotAccepted, Refused};
use pb_classify::classify;
use pb_elim::{stage, study_classed};
use pb_graph::{Classified, Graph, List};
use pb_period::{Assembly, assemble, design};
use pb_report::{
    Form, write_advise, write_component, write_design, write_history, write_over, write_refused,
    write_study, write_window,
};
use pb_rows::{Name, Names, Row};
use pb_study::{Options, Stage, Study};
use pb_window::{code_of, places, window};
use std::alloc::{AllocError, Global};
use std::marker::Model;

/// A session: the options of its studies, the form of its output, and the book of its rows. It also keeps studies of periods that
/// no later row has touched, and the first stage of the study that it reported last, which has the classes of its streams.
#[derive(Drop)]
pub struct Session {
    alloc: Global,
    options: Options,
    form: Form,
    book: Book,
    kept: Vec<KeptStudy>,
    // The stage that was reported last, unless it is that of the first kept study.
    last: Option<Stage>,
}

impl Model for Session {
    ghost use Rattle.pb_session.specs.Kept.{Held};

    ghost Value = { Held };

    ghost use Rattle.pb_session.specs.Keeping.{IsKeeping, held_of};

    ghost view = { λ a. held_of
        (record { options = a.options; form = a.form; rows = a.book }) a.kept.items a.last };

    ghost invariant = { λ a. IsKeeping
        (record { options = a.options; form = a.form; rows = a.book }) a.kept.items a.last };
}

/// What a written report leaves to be kept.
#[derive(Drop)]
struct Reported {
    /// The study, if it was made for the report and wasn't kept before.
    made: Option<Study>,
}

impl Session {
    ghost use Rattle.pb_book.specs.Answer.{answer_of};
    ghost use Rattle.pb_classify.specs.Classification.{IsClassification};
    ghost use Rattle.pb_study.specs.Options.{AreOptions};
    ghost use Rattle.pb_stage.specs.Printed.{printed_classes};
    ghost use Rattle.pb_graph.specs.ProcessGraph.{IsProcessGraph};
    ghost use Rattle.pb_period.specs.Days.{days_of};
    ghost use Rattle.pb_period.specs.PeriodGraph.{NamesAStream, period_graph};
    ghost use Rattle.pb_session.specs.Accepted.{IsOfPeriods};
    ghost use Rattle.pb_session.specs.Appending.{AppendsText, KeepsText};
    ghost use Rattle.pb_session.specs.Closed.{LeavesClosed};
    ghost use Rattle.pb_session.specs.FirstStage.{Begins, IsFirstStage, TellsAStream};
    ghost use Rattle.pb_session.specs.Keeping.{IsBalanceAt, IsReportedAt, IsReportedOf, IsStudied, IsStudiedAt};
    ghost use Rattle.pb_session.specs.Kept.{IsKeptAt, IsReportedStage, Keeps, KeepsAccepted, KeepsReportOf, most_kept, reported_after, reported_behind, reported_of};
    ghost use Rattle.pb_session.specs.Session.{Adds, AddsAccepted, AreNamesOf, Balances, cause_in, IsAdviceText, IsDesign, IsHistoryText, IsReport, IsTextOf, Reports, Windows, state_after, window_head};
    ghost use Rattle.pb_assay.specs.Balance.{HasCountsOf};
    ghost use Rattle.pb_window.specs.Between.{IsStreamBetween, assembly_between};

    /// A session that has stored nothing.
    pub fn new(alloc: Global, options: Options, form: Form) -> Session
        requires { AreOptions options }
        ensures options { result.state.options ≡ options }
        ensures form { result.state.form ≡ form }
        ensures rows { result.state.rows ≡ [] }
        ensures kept { result.kept ≡ [] }
        ensures reported { result.reported ≡ None }
    {
        Session {
            alloc,
            options,
            form,
            book: Book::new(alloc),
            kept: Vec::new(alloc),
            last: None,
        }
    }

    /// The book of the rows stored so far.
    pub fn book(&self) -> &Book
        ensures { result.now ≡ self.now.state.rows }
    {
        &self.book
    }

    /// The study that is kept for the period at a place: that of its graph by the rows stored so far, with one stage. `None` iff no
    /// study is kept for it. At most four are kept. Allocates no memory.
    pub fn kept(&self, period: u32) -> Option<&Study>
        requires { period < length (periods_of self.now.state.rows) }
        ensures found { IsSome result ↔ Contains self.now.kept period }
        ensures study { IfSome result (λ study. IsKeptAt self.now.state
            (slice_get (periods_of self.now.state.rows) period) study.now) }
        ensures few { length self.now.kept ≤ most_kept }
    {
        match place_of(&self.kept, period) {
            Some(place) => Some(&self.kept[place].study),
            None => None,
        }
    }

    /// The first stage of the study that was reported last, by the options of the session and the critical values that were declared
    /// then: it has the graph of that report, and the class of each stream with its certificate. `None` iff no report was written.
    /// Allocates no memory.
    pub fn classes(&self) -> Option<&Stage>
        ensures graph { option_map (λ stage. stage.now.graph) result ≡ self.now.reported }
        ensures first { IfSome result
            (λ stage. IsReportedStage self.now.state.options stage.now) }
        ensures list { IfSome result
            (λ stage. IsClassification stage.now.graph (printed_classes stage.now)) }
    {
        last_stage(&self.kept, &self.last)
    }

    /// Takes the record with the number `at`, counted from 1, and appends to `out` what it adds to the output. Returns the cause if
    /// the record was refused. The study of a report is kept if it has one stage, and a stored row drops the kept studies of the
    /// periods that it touches. In a session of version 2 a declaration doesn't change the graph of a closed period. After an `Err`
    /// (out of memory), the session, with all that it keeps, and `out` are as they were.
    pub fn row(
        &mut self,
        at: u32,
        row: &Row,
        out: &mut Vec<u8>,
    ) -> Result<Option<Refused>, AllocError>
        ensures ok { OnOk result (AppendsText (Adds self.old.state at row.now) out.old out.new) }
        ensures refused { IfOk result (λ cause.
            cause ≡ cause_in (answer_of self.old.state.rows row.now)) }
        ensures stored { OnOk result (self.new.state ≡ state_after self.old.state at row.now) }
        ensures kept { OnOk result (Keeps self.old.state self.old.kept at row.now self.new.kept) }
        ensures reported { OnOk result (self.new.reported
            ≡ reported_after self.old.state self.old.reported
            (answer_of self.old.state.rows row.now)) }
        ensures closed { OnOk result
            (LeavesClosed self.old.state.rows at self.new.state.rows) }
        ensures err { OnErr result (self.new ≡ self.old) }
        ensures err_out { OnErr result (KeepsText out.old out.new) }
    {
        match self.book.accept(at, row) {
            Ok(accepted) => {
                drop_touched(&mut self.kept, &mut self.last, &self.book, &accepted);
                self.write(accepted, row, out)?;
                Ok(None)
            }
            Err(NotAccepted::Refused(cause)) => {
                self.refuse(at, cause, out)?;
                Ok(Some(cause))
            }
            Err(NotAccepted::NoMemory) => Err(AllocError),
        }
    }

    /// The first stage of the study of a period as it is now, by the options of the session. `Over` names the first stream whose
    /// value or variance is above the limits of a graph.
    pub fn first_stage(&self, period: u32) -> Result<Stage, Assembly>
        requires { period < length (periods_of self.now.state.rows) }
        ensures answer { result ≢ Err Assembly.NoMemory
            → Begins self.now.state (slice_get (periods_of self.now.state.rows) period) result }
        ensures over { TellsAStream self.now.state
            (slice_get (periods_of self.now.state.rows) period) result }
    {
        match assemble(self.alloc, &self.book, period) {
            Ok(graph) => self.stage_of(&graph),
            Err(why) => Err(why),
        }
    }

    // The first stage of the study of a graph.
    fn stage_of(&self, graph: &Graph) -> Result<Stage, Assembly>
        requires { IsProcessGraph graph.now }
        ensures stage { IfOk result (IsFirstStage self.now.state graph.now) }
        ensures err { IfErr result (λ e. e ≡ Assembly.NoMemory) }
    {
        let critical = declared_critical(self.alloc, self.book.site())?;
        let stage = stage(self.alloc, graph, &self.options, &critical)?;
        Ok(stage)
    }

    // Appends the row of a refusal.
    fn refuse(&self, at: u32, cause: Refused, out: &mut Vec<u8>) -> Result<(), AllocError>
        ensures ok { OnOk result (AppendsText
            (IsTextOf self.now.state (refused_row at (cause_code cause) ∷ [])) out.old out.new) }
        ensures err { OnErr result (KeepsText out.old out.new) }
    {
        write_refused(self.alloc, at, cause.code(), self.form, out)
    }

    // Appends what an accepted record adds, and keeps what a report leaves.
    fn write(&mut self, accepted: Accepted, row: &Row, out: &mut Vec<u8>) -> Result<(), AllocError>
        requires periods { IsOfPeriods self.old.state.rows accepted }
        requires advised { accepted ≡ Advise
            → answer_of self.old.state.rows row.now ≡ Says Advise }
        ensures ok { OnOk result (AppendsText
            (AddsAccepted self.old.state (named_costs row.now) accepted) out.old out.new) }
        ensures state { OnOk result (self.new.state ≡ self.old.state) }
        ensures kept { OnOk result
            (KeepsAccepted self.old.state self.old.kept accepted self.new.kept) }
        ensures reported { OnOk result (self.new.reported
            ≡ reported_behind self.old.state self.old.reported accepted) }
        ensures err { OnErr result (self.new ≡ self.old) }
        ensures err_out { OnErr result (KeepsText out.old out.new) }
        ensures sure { OnErr result (accepted ≢ Stored) }
    {
        match accepted {
            Accepted::Blank => Ok(()),
            Accepted::Stored => Ok(()),
            Accepted::Design => self.write_design(out),
            Accepted::Report(i) => self.write_report(i, out),
            Accepted::History(i) => self.write_history(i, out),
            Accepted::Advise => self.write_advise(row, out),
            Accepted::Window { first, last } => self.write_window(first, last, out),
            Accepted::Component { component, period } => {
                self.write_balance(&component, period, out)
            }
        }
    }

    // Appends the rows of the design of the stored plant.
    fn write_design(&self, out: &mut Vec<u8>) -> Result<(), AllocError>
        ensures ok { OnOk result (AppendsText
            (AddsAccepted self.now.state [] Design) out.old out.new) }
        ensures err { OnErr result (KeepsText out.old out.new) }
    {
        let names = self.book.site().names()?;
        let graph = design(self.alloc, &self.book)?;
        self.write_classes(&names, &graph, out)
    }

    // Appends the rows of the design of a graph, given the names of its nodes and streams.
    fn write_classes(
        &self,
        names: &Names,
        graph: &Graph,
        out: &mut Vec<u8>,
    ) -> Result<(), AllocError>
        requires names { AreNamesOf names.now graph.now }
        requires limits { IsProcessGraph graph.now }
        ensures ok { OnOk result (AppendsText
            (IsDesign self.now.state names.now graph.now) out.old out.new) }
        ensures err { OnErr result (KeepsText out.old out.new) }
    {
        let classes = classify(self.alloc, graph)?;
        write_design(self.alloc, names, graph, &classes, self.form, out)
    }

    // Appends the rows of the cheapest metering of the stored plant, at the costs that a record names.
    fn write_advise(&self, row: &Row, out: &mut Vec<u8>) -> Result<(), AllocError>
        requires { answer_of self.now.state.rows row.now ≡ Says Advise }
        ensures ok { OnOk result (AppendsText
            (AddsAccepted self.now.state (named_costs row.now) Advise) out.old out.new) }
        ensures err { OnErr result (KeepsText out.old out.new) }
    {
        let names = self.book.site().names()?;
        let costs = self.book.costs(self.alloc, row)?;
        let plant = design(self.alloc, &self.book)?;
        self.write_meters(&names, &plant, &costs, out)
    }

    // Appends the rows of the cheapest metering of a graph, given what a meter on each stream costs, and the names of its nodes and
    // streams.
    fn write_meters(
        &self,
        names: &Names,
        graph: &Graph,
        costs: &[i64],
        out: &mut Vec<u8>,
    ) -> Result<(), AllocError>
        requires names { AreNamesOf names.now graph.now }
        requires limits { IsProcessGraph graph.now }
        requires costs { AreCosts graph.now costs.now }
        ensures ok { OnOk result (AppendsText
            (IsAdviceText self.now.state names.now graph.now costs.now) out.old out.new) }
        ensures err { OnErr result (KeepsText out.old out.new) }
    {
        let advice = advise(self.alloc, graph, costs)?;
        write_advise(self.alloc, names, &advice, self.form, out)
    }

    // Appends the history of a period.
    fn write_history(&self, i: u32, out: &mut Vec<u8>) -> Result<(), AllocError>
        requires { i < length (periods_of self.now.state.rows) }
        ensures ok { OnOk result (AppendsText
            (IsHistoryText self.now.state (slice_get (periods_of self.now.state.rows) i))
            out.old out.new) }
        ensures err { OnErr result (KeepsText out.old out.new) }
    {
        let period = self.book.period(i);
        let edits = history_of(self.alloc, &self.book, i)?;
        write_history(
            self.alloc,
            &period.name,
            period.closed,
            edits.as_slice(),
            self.form,
            out,
        )
    }

    // Appends the report of a period, or the row that names the first stream beyond the limits, and keeps what it leaves. All
    // memory is allocated before what is kept changes.
    fn write_report(&mut self, i: u32, out: &mut Vec<u8>) -> Result<(), AllocError>
        requires { i < length (periods_of self.old.state.rows) }
        ensures ok { OnOk result (AppendsText (Reports self.old.state
            (slice_get (periods_of self.old.state.rows) i)) out.old out.new) }
        ensures state { OnOk result (self.new.state ≡ self.old.state) }
        ensures kept { OnOk result (KeepsReportOf self.old.state i self.old.kept
            (slice_get (periods_of self.old.state.rows) i) self.new.kept) }
        ensures reported { OnOk result (self.new.reported ≡ reported_of self.old.state
            self.old.reported (slice_get (periods_of self.old.state.rows) i)) }
        ensures err { OnErr result (self.new ≡ self.old) }
        ensures err_out { OnErr result (KeepsText out.old out.new) }
    {
        self.kept.reserve(1)?;
        match self.report(i, out)? {
            Some(reported) => settle(&mut self.kept, &mut self.last, i, reported.made),
            None => {}
        }
        Ok(())
    }

    // Appends the report of a period, and returns what it leaves to be kept. The report is written from the kept study, if there is
    // one.
    fn report(&self, i: u32, out: &mut Vec<u8>) -> Result<Option<Reported>, AllocError>
        requires { i < length (periods_of self.now.state.rows) }
        ensures ok { OnOk result (AppendsText (Reports self.now.state
            (slice_get (periods_of self.now.state.rows) i)) out.old out.new) }
        ensures leaves { IfOk result
            (IsReportedAt self.now i (slice_get (periods_of self.now.state.rows) i)) }
        ensures err { OnErr result (KeepsText out.old out.new) }
    {
        match self.kept(i) {
            Some(study) => self.report_kept(i, study, out),
            None => self.report_anew(i, out),
        }
    }

    // Appends the report of a period whose study is kept.
    fn report_kept(
        &self,
        i: u32,
        study: &Study,
        out: &mut Vec<u8>,
    ) -> Result<Option<Reported>, AllocError>
        requires there { i < length (periods_of self.now.state.rows) }
        requires kept { Contains self.now.kept i }
        requires study { IsKeptAt self.now.state
            (slice_get (periods_of self.now.state.rows) i) study.now }
        ensures ok { OnOk result (AppendsText (Reports self.now.state
            (slice_get (periods_of self.now.state.rows) i)) out.old out.new) }
        ensures leaves { IfOk result
            (IsReportedAt self.now i (slice_get (periods_of self.now.state.rows) i)) }
        ensures err { OnErr result (KeepsText out.old out.new) }
    {
        let names = pb_period::names(self.alloc, &self.book, i)?;
        let name = self.book.period(i).name;
        write_study(
            self.alloc,
            &names,
            &name,
            &self.options,
            study,
            self.form,
            out,
        )?;
        Ok(Some(Reported { made: None }))
    }

    // Appends the report of a period, or the row that names the first stream beyond the limits.
    fn report_anew(&self, i: u32, out: &mut Vec<u8>) -> Result<Option<Reported>, AllocError>
        requires { i < length (periods_of self.now.state.rows) }
        ensures ok { OnOk result (AppendsText (Reports self.now.state
            (slice_get (periods_of self.now.state.rows) i)) out.old out.new) }
        ensures leaves { IfOk result
            (IsReportedAt self.now i (slice_get (periods_of self.now.state.rows) i)) }
        ensures err { OnErr result (KeepsText out.old out.new) }
    {
        let names = pb_period::names(self.alloc, &self.book, i)?;
        let period = self.book.period(i).name;
        match assemble(self.alloc, &self.book, i) {
            Ok(graph) => Ok(Some(self.report_graph(i, &names, &period, &graph, out)?)),
            Err(Assembly::Over(j)) => {
                write_over(
                    self.alloc,
                    &period,
                    names.streams.at(j as usize),
                    self.form,
                    out,
                )?;
                Ok(None)
            }
            Err(Assembly::NoMemory) => Err(AllocError),
        }
    }

    // Appends the report of a period with this name and this graph, with the names of its nodes and streams, and returns what it
    // leaves to be kept.
    fn report_graph(
        &self,
        i: u32,
        names: &Names,
        period: &Name,
        graph: &Graph,
        out: &mut Vec<u8>,
    ) -> Result<Reported, AllocError>
        requires names { AreNamesOf names.now graph.now }
        requires limits { IsProcessGraph graph.now }
        ensures ok { OnOk result (AppendsText
            (IsReport self.now.state [] names.now period.now graph.now) out.old out.new) }
        ensures leaves { IfOk result (IsReportedOf self.now i graph.now) }
        ensures err { OnErr result (KeepsText out.old out.new) }
    {
        let study = self.study_of(graph)?;
        write_study(
            self.alloc,
            names,
            period,
            &self.options,
            &study,
            self.form,
            out,
        )?;
        Ok(Reported { made: Some(study) })
    }

    // Appends the report of a graph under this name, with the names of its nodes and streams. Nothing is kept.
    fn write_graph(
        &self,
        names: &Names,
        period: &Name,
        graph: &Graph,
        out: &mut Vec<u8>,
    ) -> Result<(), AllocError>
        requires names { AreNamesOf names.now graph.now }
        requires limits { IsProcessGraph graph.now }
        ensures ok { OnOk result (AppendsText
            (IsReport self.now.state [] names.now period.now graph.now) out.old out.new) }
        ensures err { OnErr result (KeepsText out.old out.new) }
    {
        let study = self.study_of(graph)?;
        write_study(
            self.alloc,
            names,
            period,
            &self.options,
            &study,
            self.form,
            out,
        )
    }

    // The study of a graph, by the options of the session.
    fn study_of(&self, graph: &Graph) -> Result<Study, AllocError>
        requires { IsProcessGraph graph.now }
        ensures { IfOk result (IsStudied self.now.state graph.now) }
    {
        let critical = declared_critical(self.alloc, self.book.site())?;
        let classes = self.classes_of(graph)?;
        let study = study_classed(self.alloc, graph, classes, &self.options, &critical)?;
        Ok(study)
    }

    // Appends the balance of a component in a period, or the row that names the first stream beyond the limits. Nothing is kept.
    fn write_balance(&self, component: &Name, i: u32, out: &mut Vec<u8>) -> Result<(), AllocError>
        requires { i < length (periods_of self.now.state.rows) }
        ensures ok { OnOk result (AppendsText (Balances self.now.state component.now
            (slice_get (periods_of self.now.state.rows) i)) out.old out.new) }
        ensures err { OnErr result (KeepsText out.old out.new) }
    {
        let names = pb_period::names(self.alloc, &self.book, i)?;
        let period = self.book.period(i).name;
        match self.balance(component, i) {
            Ok(graph) => self.write_component(&names, component, &period, &graph, out),
            Err(Assembly::Over(j)) => write_over(
                self.alloc,
                &period,
                names.streams.at(j as usize),
                self.form,
                out,
            ),
            Err(Assembly::NoMemory) => Err(AllocError),
        }
    }

    // Appends the row of a component in a period of this name, and the report of its graph.
    fn write_component(
        &self,
        names: &Names,
        component: &Name,
        period: &Name,
        graph: &Graph,
        out: &mut Vec<u8>,
    ) -> Result<(), AllocError>
        requires names { AreNamesOf names.now graph.now }
        requires limits { IsProcessGraph graph.now }
        ensures ok { OnOk result (AppendsText (IsReport self.now.state
            (component_row component.now period.now ∷ []) names.now period.now graph.now)
            out.old out.new) }
        ensures err { OnErr result (KeepsText out.old out.new) }
    {
        let before = out.len();
        write_component(self.alloc, component, period, self.form, out)?;
        self.report_after(before, names, period, graph, out)
    }

    // The component graph of a period, by the last stage of its study: of the kept study, if there is one.
    fn balance(&self, component: &Name, i: u32) -> Result<Graph, Assembly>
        requires { i < length (periods_of self.now.state.rows) }
        ensures answer { result ≢ Err Assembly.NoMemory → IsBalanceAt self.now.state component.now
            (slice_get (periods_of self.now.state.rows) i) result }
        ensures counts { IfSome (slice_get (periods_of self.now.state.rows) i)
            (λ period. IfOk result
            (HasCountsOf (period_graph self.now.state.rows (days_of period)))) }
        ensures over { IfSome (slice_get (periods_of self.now.state.rows) i)
            (λ period. IfErr result (NamesAStream self.now.state.rows (days_of period))) }
    {
        match self.kept(i) {
            Some(study) => self.balance_by(component, i, &study.stages.at(0).graph, study),
            None => match assemble(self.alloc, &self.book, i) {
                Ok(graph) => {
                    let study = self.study_of(&graph)?;
                    self.balance_by(component, i, &graph, &study)
                }
                Err(why) => Err(why),
            },
        }
    }

    // The component graph of a period that has this graph and this study, by the last stage of the study.
    fn balance_by(
        &self,
        component: &Name,
        i: u32,
        graph: &Graph,
        study: &Study,
    ) -> Result<Graph, Assembly>
        requires { IsStudiedAt self.now.state (slice_get (periods_of self.now.state.rows) i)
            graph.now study.now }
        ensures answer { result ≢ Err Assembly.NoMemory → IsBalanceAt self.now.state component.now
            (slice_get (periods_of self.now.state.rows) i) result }
        ensures counts { IfSome (slice_get (periods_of self.now.state.rows) i)
            (λ period. IfOk result
            (HasCountsOf (period_graph self.now.state.rows (days_of period)))) }
        ensures over { IfSome (slice_get (periods_of self.now.state.rows) i)
            (λ period. IfErr result (NamesAStream self.now.state.rows (days_of period))) }
    {
        let last = study.stages.at(study.taken.len());
        pb_assay::component(self.alloc, &self.book, component, i, graph, last)
    }

    // Appends the window from the period at one place to the period at another, or the row that names its first stream beyond the
    // limits. Nothing is kept.
    fn write_window(&self, first: u32, last: u32, out: &mut Vec<u8>) -> Result<(), AllocError>
        requires { IsWindowAsked self.now.state.rows first last }
        ensures ok { OnOk result (AppendsText (Windows self.now.state
            (slice_get (periods_of self.now.state.rows) first)
            (slice_get (periods_of self.now.state.rows) last)) out.old out.new) }
        ensures err { OnErr result (KeepsText out.old out.new) }
    {
        match window(self.alloc, &self.book, first, last) {
            Ok((graph, names)) => self.report_window(first, last, &names, &graph, out),
            Err(Assembly::Over(j)) => self.write_window_over(first, last, j, out),
            Err(Assembly::NoMemory) => Err(AllocError),
        }
    }

    // Appends the row that names the first stream beyond the limits in place of a window.
    fn write_window_over(
        &self,
        first: u32,
        last: u32,
        j: u32,
        out: &mut Vec<u8>,
    ) -> Result<(), AllocError>
        requires asked { IsWindowAsked self.now.state.rows first last }
        requires over { OfEnds self.now.state.rows first last
            (λ one other. Err (Assembly.Over j) ≡ assembly_between self.now.state.rows one other) }
        requires there { IsStreamBetween self.now.state.rows first last j }
        ensures ok { OnOk result (AppendsText (Windows self.now.state
            (slice_get (periods_of self.now.state.rows) first)
            (slice_get (periods_of self.now.state.rows) last)) out.old out.new) }
        ensures err { OnErr result (KeepsText out.old out.new) }
    {
        let code = code_of(self.alloc, &self.book, first, last, j)?;
        write_over(
            self.alloc,
            &self.book.period(first).name,
            &code,
            self.form,
            out,
        )
    }

    // Appends the rows before the report of a window, and the report of its graph under the name of its first period.
    fn report_window(
        &self,
        first: u32,
        last: u32,
        names: &Names,
        graph: &Graph,
        out: &mut Vec<u8>,
    ) -> Result<(), AllocError>
        requires asked { IsWindowAsked self.now.state.rows first last }
        requires names { AreNamesOf names.now graph.now }
        requires limits { IsProcessGraph graph.now }
        ensures ok { OnOk result (OfEnds self.now.state.rows first last (λ one other. AppendsText
            (IsReport self.now.state (window_head self.now.state.rows one other) names.now
            one.name graph.now) out.old out.new)) }
        ensures err { OnErr result (KeepsText out.old out.new) }
    {
        let periods = self.book.periods_between(self.alloc, first, last)?;
        let places = places(self.alloc, &self.book, first, last)?;
        let name = self.book.period(first).name;
        let before = out.len();
        write_window(
            self.alloc,
            &name,
            &self.book.period(last).name,
            periods.len() as u32,
            places.as_slice(),
            self.form,
            out,
        )?;
        self.report_after(before, names, &name, graph, out)
    }

    // Appends the report of a graph after the rows from a place on; these rows stay only if there is memory for the whole report.
    fn report_after(
        &self,
        before: usize,
        names: &Names,
        period: &Name,
        graph: &Graph,
        out: &mut Vec<u8>,
    ) -> Result<(), AllocError>
        requires names { AreNamesOf names.now graph.now }
        requires limits { IsProcessGraph graph.now }
        ensures ok { OnOk result (AppendsText
            (IsReport self.now.state [] names.now period.now graph.now) out.old out.new) }
        ensures err { OnErr result (out.new.items ≡ take before out.old.items) }
    {
        if let Err(fault) = self.write_graph(names, period, graph, out) {
            out.truncate(before);
            return Err(fault);
        }
        Ok(())
    }

    // The classes of a graph: a copy of those that were reported last, if they are also those of this graph.
    fn classes_of(&self, graph: &Graph) -> Result<List<Classified>, AllocError>
        requires { IsProcessGraph graph.now }
        ensures { IfOk result (IsClassification graph.now) }
    {
        match self.classes() {
            Some(stage) if stage.graph.alike(graph) => {
                classes_in(self.alloc, stage.streams.as_slice())
            }
            _ => classify(self.alloc, graph),
        }
    }
}
