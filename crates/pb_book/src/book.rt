// The book of accepted rows.

ghost use Rattle.std.specs.Prelude.{◌≡◌, ◌≢◌, ◌<◌, ◌≤◌, [], length, map, All, Err, Ok, IfOk, IfSome, OnOk, OnErr, slice_get, None, Some, false, true, vec_capacity, vec_len};
ghost use Rattle.std.specs.List.{list_any};
ghost use Rattle.pb_limits.specs.Limits.{most_periods, most_periods_of_window};
ghost use Rattle.pb_facts.specs.Grade.{IsGrade};
ghost use Rattle.pb_site.specs.Site.{version_of};
ghost use Rattle.pb_site.specs.declared.declared.Version.TheVariants.{One};
ghost use Rattle.pb_facts.specs.Facts.{NoRepeats};
ghost use Rattle.pb_kinds.specs.declared.rows.Effect.TheVariants.{Books, Closes, Declares, Edits, Opens};
ghost use Rattle.pb_kinds.specs.Costs.{IsMeterCost, named_costs};
ghost use Rattle.pb_kinds.specs.Ranges.{IsEffectInRange, IsRequestInRange};
ghost use Rattle.pb_facts.specs.Assays.{is_assay_over, most_assays};
ghost use Rattle.pb_kinds.specs.Requests.{request_in};
ghost use Rattle.pb_kinds.specs.Versions.{may_ask, may_do};
ghost use Rattle.pb_book.specs.declared.answer.Accepted.TheVariants.{Advise, Stored};
ghost use Rattle.pb_book.specs.declared.answer.NotAccepted.TheVariants.{NoMemory};
ghost use Rattle.pb_book.specs.Accepted.{AreAccepted, AreInTables, IsAcceptable};
ghost use Rattle.pb_book.specs.Answer.{Says, after, after_answer, answer_of, answer_to, component_or_refused, said_of, window_or_refused, Stores, unless_refused};
ghost use Rattle.pb_book.specs.declared.answer.Accepted.TheVariants as answered;
ghost use Rattle.pb_periods.specs.Apart.{AreApart};
ghost use Rattle.pb_book.specs.Assays.{assays_of, grade_of};
ghost use Rattle.pb_book.specs.Costs.{meter_costs, refusal_of_costs};
ghost use Rattle.pb_book.specs.Edits.{edit_touches, edits_of, touches_at};
ghost use Rattle.pb_book.specs.Plain.{plain_rows};
ghost use Rattle.pb_periods.specs.Ranges.{IsPeriod};
ghost use Rattle.pb_book.specs.Refusals.{refusal_behind, refusal_of};
ghost use Rattle.pb_book.specs.Rows.{declared_of, facts_of, period_place, periods_of, version_at, with_row};
ghost use Rattle.pb_periods.specs.Touching.{touches_in};
ghost use Rattle.pb_book.specs.TakenOut.{last_row, takes_out, touched_at, touches_by_id};
ghost use Rattle.pb_book.specs.VersionOne.{first_answer_of, says_version};
ghost use Rattle.pb_book.specs.Windows.{ArePlacesBetween, HavePlaceNames, IsWindowAsked, IsWindowBetween, refusal_of_window};
ghost use Rattle.pb_book.specs.Written.{WriteRows};
ghost use Rattle.pb_plan.specs.Codes.{AreWindowNames};
ghost use Rattle.pb_plan.specs.Window.{IsWindow};

use crate::answer::{Accepted, NotAccepted, Refused};
use crate::costs::{judge_costs, meter_costs};
use crate::judge::{fault_cause, first_cause, judge, judge_alone};
use crate::originals::keep_original;
use crate::plain::plain_records;
use crate::rows::{Edited, Part, Place};
use crate::shelves::row_at;
use pb_facts::{Assays, Fact, Facts, Grade};
use pb_kinds::{Assay, Edit, Effect, NamedCosts, Request, StoredRow, read_reading, read_request};
use pb_periods::{Period, Periods, judge_window, places_between, touches_in, window_over};
use pb_plan::Window;
use pb_rows::{Name, Reason, Row, Rows};
use pb_site::{Declared, Site, Version};
use std::alloc::{AllocError, Global};
use std::collections::HashMap;
use std::marker::Model;

// As soon as this many rows are stored, room is made for that many.
const FEW: usize = 1 << 10;

const MANY: usize = 1 << 14;

/// The accepted rows of a session, in order: the places of all rows and those of the edits, and their contents by part. The facts
/// are kept with their last values; those that an edit changed are also kept as they came, by their places.
#[derive(Drop)]
pub struct Book {
    places: Vec<Place>,
    edits: Vec<Place>,
    edited: Vec<Edited>,
    site: Site,
    facts: Facts,
    originals: HashMap<u32, Fact>,
    periods: Periods,
    assays: Assays,
}

impl Model for Book {
    ghost use Rattle.std.specs.Prelude.{List};
    ghost use Rattle.pb_kinds.specs.declared.rows.StoredRow.{StoredRow};
    ghost use Rattle.pb_book.specs.Kept.{IsKept, rows_at, shelves_of, told_at};

    ghost Value = { List StoredRow };

    ghost view = { λ a.
        rows_at (shelves_of a.site (told_at a.facts a.originals) a.periods a.edited.items a.assays)
        a.places.items };

    ghost invariant = { λ a.
        IsKept
        (shelves_of a.site (told_at a.facts a.originals) a.periods a.edited.items a.assays)
        a.facts a.places.items a.edits.items };
}

impl Book {
    /// A book without rows.
    pub fn new(alloc: Global) -> Book
        ensures { result ≡ [] }
    {
        Book {
            places: Vec::new(alloc),
            edits: Vec::new(alloc),
            edited: Vec::new(alloc),
            site: Site::new(alloc),
            facts: Facts::new(alloc),
            originals: HashMap::new(alloc),
            periods: Periods::new(alloc),
            assays: Assays::new(alloc),
        }
    }

    /// Takes the record with the number `at`, counted from 1: it is refused for the first cause that holds, or it joins the book,
    /// or it asks for a design, a report, a history, a window, advice or a balance. After a refusal the book is as it was. After a
    /// row was stored, no two facts have the same id. Unless a row states that the session is of version 2, the answer is that of
    /// version 1.
    pub fn accept(&mut self, at: u32, row: &Row) -> Result<Accepted, NotAccepted>
        ensures answer { result ≢ Err NoMemory → result ≡ said_of (answer_of self.old row.now) }
        ensures stored { result ≢ Err NoMemory → self.new ≡ after self.old at row.now }
        ensures unchanged { result ≡ Err NoMemory → self.new ≡ self.old }
        ensures no_repeats { result ≡ Ok Stored → NoRepeats (facts_of self.new) }
        ensures accepted { AreAccepted self.new }
        ensures version_1 { version_of (declared_of self.old) ≡ One
            → says_version (answer_of self.old row.now) ≡ false → result ≢ Err NoMemory
            → result ≡ said_of (first_answer_of self.old row.now) }
    {
        match read_reading(self.version(), row) {
            Some(fact) => self.book_fact(at, &fact),
            None => self.accept_any(at, row),
        }
    }

    // Takes a record of any kind.
    #[inline(never)]
    fn accept_any(&mut self, at: u32, row: &Row) -> Result<Accepted, NotAccepted>
        ensures answer { result ≢ Err NoMemory → result ≡ said_of (answer_of self.old row.now) }
        ensures stored { result ≢ Err NoMemory → self.new ≡ after self.old at row.now }
        ensures unchanged { result ≡ Err NoMemory → self.new ≡ self.old }
        ensures no_repeats { result ≡ Ok Stored → NoRepeats (facts_of self.new) }
        ensures accepted { AreAccepted self.new }
        ensures version_1 { version_of (declared_of self.old) ≡ One
            → says_version (answer_of self.old row.now) ≡ false → result ≢ Err NoMemory
            → result ≡ said_of (first_answer_of self.old row.now) }
    {
        match read_request(self.version(), row) {
            Ok(request) => self.answer(at, row, &request),
            Err(fault) => Err(NotAccepted::Refused(Refused::from(fault))),
        }
    }

    /// The version of the session; `None` while no row is stored. The rows were accepted, one after the other.
    pub fn version(&self) -> Option<Version>
        ensures value { result ≡ version_at self.now }
        ensures accepted { AreAccepted self.now }
    {
        if self.places.is_empty() {
            None
        } else {
            Some(self.site.version())
        }
    }

    /// The declared plant. The rows were accepted, one after the other.
    pub fn site(&self) -> &Site
        ensures value { result.now ≡ declared_of self.now }
        ensures accepted { AreAccepted self.now }
    {
        &self.site
    }

    /// The facts. No two have the same id, and each dip lies in its tank's table.
    pub fn facts(&self) -> &Facts
        ensures value { result.now ≡ facts_of self.now }
        ensures no_repeats { NoRepeats (facts_of self.now) }
        ensures in_tables { AreInTables (declared_of self.now) (facts_of self.now) }
    {
        &self.facts
    }

    /// The number of periods. No two share a name or a day.
    pub fn periods(&self) -> u32
        ensures value { result ≡ length (periods_of self.now) }
        ensures within { length (periods_of self.now) ≤ most_periods }
        ensures apart { AreApart (periods_of self.now) }
    {
        self.periods.len()
    }

    /// The period at a place, counted from 0 in the order of declaration.
    pub fn period(&self, i: u32) -> Period
        requires { i < length (periods_of self.now) }
        ensures value { slice_get (periods_of self.now) i ≡ Some result }
        ensures days { IsPeriod result }
    {
        self.periods.at(i)
    }

    /// The place of the period of a name; `None` iff there is none.
    pub fn period_of(&self, name: &Name) -> Option<u32>
        ensures { result ≡ period_place self.now name.now }
    {
        self.periods.place_of(name)
    }

    /// The number of edits: rows that close a period, book a fact late, change a fact or strike it.
    pub fn edits(&self) -> usize
        ensures { result ≡ length (edits_of self.now) }
    {
        self.edits.len()
    }

    /// The edit at a place, counted from 0 in the order of the records; `None` iff there is none.
    pub fn edit(&self, i: usize) -> Option<StoredRow>
        ensures { result ≡ slice_get (edits_of self.now) i }
    {
        match self.edits.get(i) {
            Some(place) => row_at(
                self.site.declared(),
                &self.facts,
                &self.originals,
                &self.periods,
                &self.edited,
                &self.assays,
                place,
            ),
            None => None,
        }
    }

    /// Whether an edit touches the period at a place: a closing touches its own period, a late fact those that it touches, and a
    /// change and a strike those that their fact touches.
    pub fn touches(&self, e: usize, i: u32) -> bool
        requires edit { e < length (edits_of self.now) }
        requires period { i < length (periods_of self.now) }
        ensures { result ≡ touches_at self.now e i }
    {
        match self.edit(e) {
            Some(edit) => {
                edit_touches(&self.site, &self.facts, &edit.effect, &self.periods.at(i))
            }
            None => false,
        }
    }

    /// Whether the row that was stored last takes the period at a place out of those whose studies are kept: a fact, a change and a
    /// strike take out each period that they touch, a declaration and a critical value every period. False if no row is stored.
    pub fn touched(&self, i: u32) -> bool
        requires { i < length (periods_of self.now) }
        ensures { result ≡ touched_at self.now i }
    {
        match self.last_row() {
            Some(row) => takes_out(&self.site, &self.facts, &row.effect, &self.periods.at(i)),
            None => false,
        }
    }

    /// What a meter on each stream and tank of the plant costs, given a record that is accepted as one that asks for advice: on a
    /// plain stream, the cost that the record names, or 1 if it names none; on any other stream or tank, which already has a meter,
    /// 0.
    pub fn costs(&self, alloc: Global, row: &Row) -> Result<Vec<i64>, AllocError>
        requires { answer_of self.now row.now ≡ Says Advise }
        ensures value { IfOk result (λ costs.
            costs.items ≡ meter_costs (declared_of self.now) (named_costs row.now)) }
        ensures within { IfOk result (λ costs. All IsMeterCost costs.items) }
    {
        meter_costs(alloc, self.site(), &NamedCosts::of(row))
    }

    /// The number of assays.
    pub fn assays(&self) -> u32
        ensures value { result ≡ length (assays_of self.now) }
        ensures within { length (assays_of self.now) ≤ most_assays }
    {
        self.assays.len()
    }

    /// The assay at a place, counted from 0 in the order of the rows.
    pub fn assay(&self, i: u32) -> Assay
        requires { i < length (assays_of self.now) }
        ensures value { slice_get (assays_of self.now) i ≡ Some result }
        ensures grade { IsGrade result.grade }
    {
        self.assays.at(i)
    }

    /// The grade of a component over the period at a place in each of these streams and tanks, all given by name; `None` for one
    /// without an assay. Makes one pass over the assays.
    pub fn grades(
        &self,
        alloc: Global,
        component: &Name,
        period: u32,
        streams: &[Name],
    ) -> Result<Vec<Option<Grade>>, AllocError>
        requires { period < length (periods_of self.now) }
        ensures value { IfOk result (λ grades. IfSome (slice_get (periods_of self.now) period)
            (λ p. grades.items ≡ map (grade_of self.now component.now p.name) streams.now)) }
        ensures limits { IfOk result (λ grades. All (λ grade. IfSome grade IsGrade) grades.items) }
    {
        let name = self.periods.at(period).name;
        self.assays.grades(alloc, component, &name, streams)
    }

    /// The places of the periods of a window that there is no cause to refuse, in order of days: from the period at one place to the
    /// period at another.
    pub fn periods_between(
        &self,
        alloc: Global,
        first: u32,
        last: u32,
    ) -> Result<Vec<u32>, AllocError>
        requires { IsWindowAsked self.now first last }
        ensures value { IfOk result (λ places. ArePlacesBetween self.now first last places.items) }
        ensures few { IfOk result (λ places. length places.items ≤ most_periods_of_window) }
        ensures within { IfOk result (λ places.
            All (λ place. place < length (periods_of self.now)) places.items) }
    {
        let (one, other) = (self.periods.at(first), self.periods.at(last));
        match places_between(alloc, &self.periods, &one, &other)? {
            Some(places) => Ok(places),
            None => Ok(Vec::new(alloc)),
        }
    }

    /// The window from the period at one place to the period at another, which there is no cause to refuse: its nodes and streams,
    /// without measurements.
    pub fn window(&self, alloc: Global, first: u32, last: u32) -> Result<Window, AllocError>
        requires { IsWindowAsked self.now first last }
        ensures value { IfOk result (IsWindowBetween self.now first last) }
        ensures form { IfOk result IsWindow }
        ensures names { IfOk result AreWindowNames }
        ensures there { IfOk result (HavePlaceNames self.now first last) }
    {
        let places = self.periods_between(alloc, first, last)?;
        match window_over(alloc, &self.site, &self.periods, &places) {
            Ok(window) => Ok(window),
            Err(_) => Err(AllocError),
        }
    }

    /// The plain rows as records: the declarations, periods, critical values and assays in order, and then the live facts with
    /// their last values. None of them is refused, and a report after them is the same as after the book's rows. Fails only if
    /// memory runs out.
    pub fn plain(&self, alloc: Global) -> Result<Rows, AllocError>
        ensures { IfOk result (λ records. WriteRows records (plain_rows self.now)) }
    {
        plain_records(
            alloc,
            self.site.declared(),
            &self.periods,
            &self.assays,
            &self.places,
            &self.facts,
        )
    }

    // The row that was stored last.
    fn last_row(&self) -> Option<StoredRow>
        ensures { result ≡ last_row self.now }
    {
        match self.places.last() {
            Some(place) => row_at(
                self.site.declared(),
                &self.facts,
                &self.originals,
                &self.periods,
                &self.edited,
                &self.assays,
                place,
            ),
            None => None,
        }
    }

    // Answers what a record asks for.
    fn answer(&mut self, at: u32, row: &Row, request: &Request) -> Result<Accepted, NotAccepted>
        requires asked { request_in (version_at self.old) row.now ≡ Ok request.now }
        requires in_range { IsRequestInRange request.now }
        requires may { may_ask (version_at self.old) request.now ≡ true }
        ensures answer { result ≢ Err NoMemory
            → result ≡ said_of (answer_to self.old (named_costs row.now) request.now) }
        ensures stored { result ≢ Err NoMemory → self.new
            ≡ after_answer self.old at (answer_to self.old (named_costs row.now) request.now) }
        ensures unchanged { result ≡ Err NoMemory → self.new ≡ self.old }
        ensures no_repeats { result ≡ Ok Stored → NoRepeats (facts_of self.new) }
    {
        match request {
            Request::Blank => Ok(Accepted::Blank),
            Request::Store(effect) => self.store(at, effect),
            Request::Design => Ok(Accepted::Design),
            Request::Report(name) => match self.period_of(name) {
                Some(period) => Ok(Accepted::Report(period)),
                None => Err(NotAccepted::Refused(Refused::Unknown)),
            },
            Request::History(name) => match self.period_of(name) {
                Some(period) => Ok(Accepted::History(period)),
                None => Err(NotAccepted::Refused(Refused::Unknown)),
            },
            Request::Advise => self.advise(row),
            Request::Window(first, last) => self.ask_window(first, last),
            Request::Component(component, period) => self.component(component, period),
        }
    }

    // Accepts the request for a window from the period of one name to that of another, or returns why it is refused.
    fn ask_window(&self, first: &Name, last: &Name) -> Result<Accepted, NotAccepted>
        ensures { result ≢ Err NoMemory → result ≡ said_of (window_or_refused self.now
            (period_place self.now first.now) (period_place self.now last.now)) }
    {
        match (self.period_of(first), self.period_of(last)) {
            (Some(first), Some(last)) => self.say_window(first, last),
            _ => Err(NotAccepted::Refused(Refused::Unknown)),
        }
    }

    // Accepts the request for a window from the period at one place to that at another, or returns why it is refused.
    fn say_window(&self, first: u32, last: u32) -> Result<Accepted, NotAccepted>
        requires first { first < length (periods_of self.now) }
        requires last { last < length (periods_of self.now) }
        ensures { result ≢ Err NoMemory → result
            ≡ said_of (unless_refused (Says (answered.Window first last))
            (refusal_of_window self.now first last)) }
    {
        let alloc = *self.places.allocator();
        let (one, other) = (self.periods.at(first), self.periods.at(last));
        match judge_window(alloc, &self.site, &self.periods, &one, &other)? {
            Some(fault) => Err(NotAccepted::Refused(Refused::from(fault))),
            None => Ok(Accepted::Window { first, last }),
        }
    }

    // Accepts the request for the balance of a component over the period of a name if some assay is of it, or returns why it is
    // refused.
    fn component(&self, component: &Name, period: &Name) -> Result<Accepted, NotAccepted>
        ensures { result ≡ said_of (component_or_refused component.now
            (list_any (is_assay_over component.now period.now) (assays_of self.now))
            (period_place self.now period.now)) }
    {
        let assayed = self.assays.has_over(component, period);
        match self.period_of(period) {
            Some(period) if assayed => Ok(Accepted::Component {
                component: *component,
                period,
            }),
            _ => Err(NotAccepted::Refused(Refused::Unknown)),
        }
    }

    // Accepts the request for advice, or returns why the costs that a record names are refused.
    fn advise(&self, row: &Row) -> Result<Accepted, NotAccepted>
        requires { request_in (version_at self.now) row.now ≡ Ok Request.Advise }
        ensures { result ≢ Err NoMemory → result ≡ said_of (unless_refused (Says answered.Advise)
            (refusal_of_costs (declared_of self.now) (named_costs row.now))) }
    {
        let named = NamedCosts::of(row);
        match judge_costs(*self.places.allocator(), self.site(), &named)? {
            Some(cause) => Err(NotAccepted::from(cause)),
            None => Ok(Accepted::Advise),
        }
    }

    // Books a fact, or returns why it is refused.
    fn book_fact(&mut self, at: u32, fact: &Fact) -> Result<Accepted, NotAccepted>
        requires { IsEffectInRange (Books fact.now false) }
        ensures answer { result ≢ Err NoMemory → result ≡ said_of (unless_refused
            (Stores (Books fact.now false)) (refusal_of self.old (Books fact.now false))) }
        ensures stored { result ≢ Err NoMemory → self.new ≡ after_answer self.old at (unless_refused
            (Stores (Books fact.now false)) (refusal_of self.old (Books fact.now false))) }
        ensures unchanged { result ≡ Err NoMemory → self.new ≡ self.old }
        ensures no_repeats { result ≡ Ok Stored → NoRepeats (facts_of self.new) }
    {
        match judge_alone(&self.site, &self.periods, fact, false) {
            Some(cause) => Err(NotAccepted::Refused(first_cause(cause, &self.facts, fact))),
            None => self.book_alone(at, fact),
        }
    }

    // Books a fact unless another fact is a cause to refuse it.
    fn book_alone(&mut self, at: u32, fact: &Fact) -> Result<Accepted, NotAccepted>
        requires in_range { IsEffectInRange (Books fact.now false) }
        requires alone { refusal_behind (version_of (declared_of self.old)) (declared_of self.old)
            [] (periods_of self.old) [] (Books fact.now false) ≡ None }
        ensures answer { result ≢ Err NoMemory → result ≡ said_of (unless_refused
            (Stores (Books fact.now false)) (refusal_of self.old (Books fact.now false))) }
        ensures stored { result ≢ Err NoMemory → self.new ≡ after_answer self.old at (unless_refused
            (Stores (Books fact.now false)) (refusal_of self.old (Books fact.now false))) }
        ensures unchanged { result ≡ Err NoMemory → self.new ≡ self.old }
        ensures no_repeats { result ≡ Ok Stored → NoRepeats (facts_of self.new) }
    {
        make_room(&mut self.places)?;
        let place = self.facts.len();
        if self.facts.book(fact)? {
            let part = Part::Booked { place, late: false };
            self.places.push_reserved(Place { at, part });
            Ok(Accepted::Stored)
        } else {
            Err(NotAccepted::Refused(fault_cause(&self.facts, fact)))
        }
    }

    // Stores a row, or returns why it is refused.
    fn store(&mut self, at: u32, effect: &Effect) -> Result<Accepted, NotAccepted>
        requires in_range { IsEffectInRange effect.now }
        requires may { may_do (version_at self.old) effect.now ≡ true }
        ensures answer { result ≢ Err NoMemory → result
            ≡ said_of (unless_refused (Stores effect.now) (refusal_of self.old effect.now)) }
        ensures stored { result ≢ Err NoMemory → self.new
            ≡ after_answer self.old at
            (unless_refused (Stores effect.now) (refusal_of self.old effect.now)) }
        ensures unchanged { result ≡ Err NoMemory → self.new ≡ self.old }
        ensures no_repeats { result ≡ Ok Stored → NoRepeats (facts_of self.new) }
    {
        match judge(&self.site, &self.facts, &self.periods, &self.assays, effect) {
            Some(cause) => Err(NotAccepted::Refused(cause)),
            None => {
                self.add(at, effect)?;
                Ok(Accepted::Stored)
            }
        }
    }

    // Adds a row that there is no cause to refuse. After an `Err` (out of memory), the book is as it was.
    fn add(&mut self, at: u32, effect: &Effect) -> Result<(), AllocError>
        requires { IsAcceptable self.old effect.now }
        ensures ok { OnOk result (self.new ≡ with_row self.old at effect.now) }
        ensures err { OnErr result (self.new ≡ self.old) }
    {
        match effect {
            Effect::Declares(declared) => self.add_declaration(at, declared),
            Effect::Opens { name, first, last } => self.add_period(at, name, *first, *last),
            Effect::Books { fact, late } => {
                if *late {
                    self.add_late(at, fact)
                } else {
                    self.add_fact(at, fact)
                }
            }
            Effect::Edits { id, edit, reason } => self.add_edit(at, id, edit, reason),
            Effect::Closes(name) => self.close(at, name),
            Effect::Assays(assay) => self.add_assay(at, assay),
        }
    }

    fn add_declaration(&mut self, at: u32, declared: &Declared) -> Result<(), AllocError>
        requires { IsAcceptable self.old (Declares declared.now) }
        ensures ok { OnOk result (self.new ≡ with_row self.old at (Declares declared.now)) }
        ensures err { OnErr result (self.new ≡ self.old) }
    {
        let part = Part::Declared(short(self.site.len())?);
        self.places.reserve(1)?;
        self.site.add(*declared)?;
        self.places.push_reserved(Place { at, part });
        Ok(())
    }

    fn add_period(&mut self, at: u32, name: &Name, first: i32, last: i32) -> Result<(), AllocError>
        requires { IsAcceptable self.old (Opens name.now first last) }
        ensures ok { OnOk result (self.new ≡ with_row self.old at (Opens name.now first last)) }
        ensures err { OnErr result (self.new ≡ self.old) }
    {
        self.places.reserve(1)?;
        let part = Part::Opened(self.periods.len());
        self.periods.push(Period {
            name: *name,
            first,
            last,
            closed: false,
        })?;
        self.places.push_reserved(Place { at, part });
        Ok(())
    }

    fn add_fact(&mut self, at: u32, fact: &Fact) -> Result<(), AllocError>
        requires { IsAcceptable self.old (Books fact.now false) }
        ensures ok { OnOk result (self.new ≡ with_row self.old at (Books fact.now false)) }
        ensures err { OnErr result (self.new ≡ self.old) }
    {
        make_room(&mut self.places)?;
        let part = Part::Booked {
            place: self.facts.len(),
            late: false,
        };
        self.facts.add(*fact)?;
        self.places.push_reserved(Place { at, part });
        Ok(())
    }

    fn add_late(&mut self, at: u32, fact: &Fact) -> Result<(), AllocError>
        requires { IsAcceptable self.old (Books fact.now true) }
        ensures ok { OnOk result (self.new ≡ with_row self.old at (Books fact.now true)) }
        ensures err { OnErr result (self.new ≡ self.old) }
    {
        self.places.reserve(1)?;
        self.edits.reserve(1)?;
        let part = Part::Booked {
            place: self.facts.len(),
            late: true,
        };
        self.facts.add(*fact)?;
        self.edits.push_reserved(Place { at, part });
        self.places.push_reserved(Place { at, part });
        Ok(())
    }

    fn add_edit(
        &mut self,
        at: u32,
        id: &Name,
        edit: &Edit,
        reason: &Reason,
    ) -> Result<(), AllocError>
        requires { IsAcceptable self.old (Edits id.now edit.now reason.now) }
        ensures ok { OnOk result
            (self.new ≡ with_row self.old at (Edits id.now edit.now reason.now)) }
        ensures err { OnErr result (self.new ≡ self.old) }
    {
        let part = Part::Edited(short(self.edited.len())?);
        self.places.reserve(1)?;
        self.edits.reserve(1)?;
        self.edited.reserve(1)?;
        match edit {
            Edit::Change(change) => {
                keep_original(&self.facts, &mut self.originals, id)?;
                self.facts.amend(id, *change)
            }
            Edit::Strike => self.facts.strike(id),
        }
        self.edited.push_reserved(Edited {
            id: *id,
            edit: *edit,
            reason: *reason,
        });
        self.edits.push_reserved(Place { at, part });
        self.places.push_reserved(Place { at, part });
        Ok(())
    }

    // Adds a closing that there is no cause to refuse, so its period exists.
    fn close(&mut self, at: u32, name: &Name) -> Result<(), AllocError>
        requires { IsAcceptable self.old (Closes name.now) }
        ensures ok { OnOk result (self.new ≡ with_row self.old at (Closes name.now)) }
        ensures err { OnErr result (self.new ≡ self.old) }
    {
        match self.period_of(name) {
            Some(place) => self.add_closing(at, name, place),
            None => Ok(()),
        }
    }

    // Adds the closing of the period at a place.
    fn add_closing(&mut self, at: u32, name: &Name, place: u32) -> Result<(), AllocError>
        requires place { period_place self.old name.now ≡ Some place }
        requires acceptable { IsAcceptable self.old (Closes name.now) }
        ensures ok { OnOk result (self.new ≡ with_row self.old at (Closes name.now)) }
        ensures err { OnErr result (self.new ≡ self.old) }
    {
        self.places.reserve(1)?;
        self.edits.reserve(1)?;
        self.periods.close(name)?;
        let part = Part::Closed(place);
        self.edits.push_reserved(Place { at, part });
        self.places.push_reserved(Place { at, part });
        Ok(())
    }

    fn add_assay(&mut self, at: u32, assay: &Assay) -> Result<(), AllocError>
        requires { IsAcceptable self.old (Effect.Assays assay.now) }
        ensures ok { OnOk result (self.new ≡ with_row self.old at (Effect.Assays assay.now)) }
        ensures err { OnErr result (self.new ≡ self.old) }
    {
        self.places.reserve(1)?;
        let part = Part::Assayed(self.assays.len());
        self.assays.push(*assay)?;
        self.places.push_reserved(Place { at, part });
        Ok(())
    }
}

// Makes room for the place of one more fact, or for the places of many more as soon as many are likely to follow: so they aren't
// moved often.
fn make_room(places: &mut Vec<Place>) -> Result<(), AllocError>
    ensures items { places.new.items ≡ places.old.items }
    ensures room { OnOk result (vec_len places.new < vec_capacity places.new) }
{
    places.reserve(if places.len() == FEW { MANY - FEW } else { 1 })
}

// A place in 32 bits. So many rows that it doesn't fit are answered as if memory ran out.
fn short(place: usize) -> Result<u32, AllocError>
    ensures { IfOk result (λ short. short ≡ place) }
{
    u32::try_from(place).map_err(|_| AllocError)
}

// Whether a row takes out a period, by what it does; the opening or closing of a period and an assay take out none.
fn takes_out(site: &Site, facts: &Facts, effect: &Effect, period: &Period) -> bool
    requires { IsPeriod period.now }
    ensures { result ≡ takes_out (touches_in (version_of site.now) site.now) facts.now effect.now
        period.now }
{
    match effect {
        Effect::Declares(_) => true,
        Effect::Opens { .. } => false,
        Effect::Books { fact, .. } => touches_in(site, fact, period),
        Effect::Edits { id, .. } => touches_by_id(site, facts, id, period),
        Effect::Closes(_) => false,
        Effect::Assays(_) => false,
    }
}

// Whether an edit touches a period, by what it does.
fn edit_touches(site: &Site, facts: &Facts, effect: &Effect, period: &Period) -> bool
    requires { IsPeriod period.now }
    ensures { result ≡ edit_touches (touches_in (version_of site.now) site.now) facts.now effect.now
        period.now }
{
    match effect {
        Effect::Closes(name) => *name == period.name,
        _ => takes_out(site, facts, effect, period),
    }
}

// Whether the fact of an id, struck or not, touches a period.
fn touches_by_id(site: &Site, facts: &Facts, id: &Name, period: &Period) -> bool
    requires { IsPeriod period.now }
    ensures { result ≡ touches_by_id (touches_in (version_of site.now) site.now) facts.now id.now
        period.now }
{
    match facts.place_of(id) {
        Some(place) => touches_in(site, &facts.kept(place).fact, period),
        None => false,
    }
}
