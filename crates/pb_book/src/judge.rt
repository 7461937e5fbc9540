// Why a row is refused: the causes in the order in which they are tested. Some of them come from the declared plant and from the
// facts.

ghost use Rattle.std.specs.Prelude.{◌≡◌, ◌&&◌, [], Option, Some};
ghost use Rattle.pb_facts.specs.Changes.{changed, fits};
ghost use Rattle.pb_facts.specs.Fact.{IsFactInRange, named_by};
ghost use Rattle.pb_site.specs.declared.declared.ArcKind.{ArcKind};
ghost use Rattle.pb_site.specs.declared.declared.Version.TheVariants.{One};
ghost use Rattle.pb_site.specs.Site.{kind_of, version_of};
ghost use Rattle.pb_kinds.specs.declared.rows.Effect.TheVariants.{Books, Closes, Declares, Edits, Opens};
ghost use Rattle.pb_kinds.specs.Ranges.{IsEffectInRange};
ghost use Rattle.pb_book.specs.Causes.{cause_of_change, fault_cause, first_cause};
ghost use Rattle.pb_book.specs.Refusals.{is_closed, is_of_other_kind, is_of_plant, is_out_of_service, is_outside_table, is_sealed_by, names_other, refusal_behind};

use crate::answer::Refused;
use pb_facts::{Assays, Change, Fact, Facts, MOST_ASSAYS};
use pb_kinds::{Assay, Edit, Effect};
use pb_limits::{MOST_DAYS_OF_PERIOD, MOST_PERIODS};
use pb_periods::{Periods, service_of};
use pb_rows::Name;
use pb_site::{
    ArcKind, Declared, Service, Site, SiteFault, Version, is_eve, is_in_service_on,
    is_in_service_throughout,
};

/// The first cause to refuse a row, given what is declared, the facts, the periods and the assays; `None` iff there is none.
pub fn judge(
    site: &Site,
    facts: &Facts,
    periods: &Periods,
    assays: &Assays,
    effect: &Effect,
) -> Option<Refused>
    requires { IsEffectInRange effect.now }
    ensures { result ≡ refusal_behind (version_of site.now) site.now facts.now periods.now
        assays.now effect.now }
{
    match effect {
        Effect::Declares(declared) => judge_declaration(site, periods, declared),
        Effect::Opens { name, first, last } => judge_period(periods, name, *first, *last),
        Effect::Books { fact, late } => judge_fact(site, facts, periods, fact, *late),
        Effect::Edits { id, edit, .. } => judge_edit(site, facts, id, edit),
        Effect::Closes(name) => judge_closing(periods, name),
        Effect::Assays(assay) => judge_assay(site, periods, assays, assay),
    }
}

// The first cause to refuse a declaration; being too late for a closed period comes before there being too many.
fn judge_declaration(site: &Site, periods: &Periods, declared: &Declared) -> Option<Refused>
    ensures { result
        ≡ refusal_behind (version_of site.now) site.now [] periods.now []
        (Declares declared.now) }
{
    let sealed = is_sealed(site.version(), periods, declared);
    match site.judge(declared) {
        Some(SiteFault::Unknown) => Some(Refused::Unknown),
        Some(SiteFault::Duplicate) => Some(Refused::Duplicate),
        Some(SiteFault::Order) => Some(Refused::Order),
        Some(SiteFault::Mismatch) => Some(Refused::Mismatch),
        Some(SiteFault::Full) => Some(if sealed {
            Refused::Sealed
        } else {
            Refused::Full
        }),
        None => if sealed { Some(Refused::Sealed) } else { None },
    }
}

// Whether a declaration comes too late for a closed period.
fn is_sealed(version: Version, periods: &Periods, declared: &Declared) -> bool
    ensures { result ≡ is_sealed_by version periods.now declared.now }
{
    match version {
        Version::One => is_of_plant(declared) && periods.some_closed(),
        Version::Two => match declared {
            Declared::Tank { service, .. } => periods.closed_in_service(*service),
            Declared::Stream { service, .. } => periods.closed_in_service(*service),
            _ => false,
        },
    }
}

// Whether it is a unit, a boundary, a tank, a point of its table or a stream.
fn is_of_plant(declared: &Declared) -> bool
    ensures { result ≡ is_of_plant declared.now }
{
    match declared {
        Declared::Version2
        | Declared::CritGlobal { .. }
        | Declared::CritNodal { .. }
        | Declared::CritMeasure { .. } => false,
        _ => true,
    }
}

// The first cause to refuse a period.
fn judge_period(periods: &Periods, name: &Name, first: i32, last: i32) -> Option<Refused>
    ensures { result ≡ refusal_behind One [] [] periods.now [] (Opens name.now first last) }
{
    if periods.has_name(name) {
        Some(Refused::Duplicate)
    } else if last < first {
        Some(Refused::Order)
    } else if periods.has_day_within(first, last) {
        Some(Refused::Mismatch)
    } else if i64::from(last) - i64::from(first) >= i64::from(MOST_DAYS_OF_PERIOD) {
        Some(Refused::Range)
    } else if periods.len() as usize >= MOST_PERIODS {
        Some(Refused::Full)
    } else {
        None
    }
}

/// The first cause to refuse a fact. A late fact may touch a closed period.
fn judge_fact(
    site: &Site,
    facts: &Facts,
    periods: &Periods,
    fact: &Fact,
    late: bool,
) -> Option<Refused>
    requires { IsFactInRange fact.now }
    ensures { result ≡ refusal_behind (version_of site.now) site.now facts.now periods.now []
        (Books fact.now late) }
{
    match judge_alone(site, periods, fact, late) {
        Some(cause) => Some(first_cause(cause, facts, fact)),
        None => {
            if facts.judge(fact).is_some() {
                Some(fault_cause(facts, fact))
            } else {
                None
            }
        }
    }
}

/// The first cause to refuse a fact as if there were no other facts.
pub fn judge_alone(site: &Site, periods: &Periods, fact: &Fact, late: bool) -> Option<Refused>
    requires { IsFactInRange fact.now }
    ensures { result ≡ refusal_behind (version_of site.now) site.now [] periods.now []
        (Books fact.now late) }
{
    let kind = kind_of_fact(site, fact);
    if names_other(fact, kind) {
        Some(Refused::Unknown)
    } else if fact.is_out_of_order() {
        Some(Refused::Order)
    } else if is_of_other_kind(fact, kind) {
        Some(Refused::Mismatch)
    } else if is_closed(site, periods, fact, late) {
        Some(Refused::Closed)
    } else if is_out_of_service(service_of(site, fact), fact)
        || fact.is_too_long()
        || is_outside_table(site, fact)
    {
        Some(Refused::Range)
    } else {
        None
    }
}

/// The first cause to refuse a fact, given the first one as if there were no other facts. If the fact repeats another, only Unknown
/// comes before that.
pub fn first_cause(cause: Refused, facts: &Facts, fact: &Fact) -> Refused
    ensures { result ≡ first_cause cause facts.now fact.now }
{
    match cause {
        Refused::Unknown => cause,
        _ if facts.repeats(fact) => Refused::Duplicate,
        _ => cause,
    }
}

/// The cause to refuse a fact that has a fault, if there is none as if there were no other facts.
pub fn fault_cause(facts: &Facts, fact: &Fact) -> Refused
    ensures { result ≡ fault_cause facts.now fact.now }
{
    if facts.repeats(fact) {
        Refused::Duplicate
    } else {
        Refused::Full
    }
}

// Whether a fact touches a closed period and isn't booked late.
fn is_closed(site: &Site, periods: &Periods, fact: &Fact, late: bool) -> bool
    requires { IsFactInRange fact.now }
    ensures { result
        ≡ is_closed (version_of site.now) site.now periods.now (Books fact.now late) }
{
    !late && periods.touches_closed(service_of(site, fact), fact)
}

// Whether a fact includes a day on which what it names isn't in service; a dip may also be of the day before the first in service.
fn is_out_of_service(service: Option<Service>, fact: &Fact) -> bool
    ensures { result ≡ is_out_of_service service fact.now }
{
    match fact {
        Fact::Reading { day, .. } => !is_in_service_on(service, *day),
        Fact::Transfer { first, last, .. } => !is_in_service_throughout(service, *first, *last),
        Fact::Dip { day, .. } => !is_in_service_on(service, *day) && !is_eve(service, *day),
    }
}

// The first cause to refuse an edit of the fact of an id.
fn judge_edit(site: &Site, facts: &Facts, id: &Name, edit: &Edit) -> Option<Refused>
    ensures { result
        ≡ refusal_behind One site.now facts.now [] [] (Edits id.now edit.now []) }
{
    let Some(place) = facts.find(id) else {
        return Some(Refused::Unknown);
    };
    let fact = facts.kept(place).fact;
    match edit {
        Edit::Change(change) => cause_of_change(site, &fact, change),
        Edit::Strike => None,
    }
}

// The first cause to refuse a change of a fact.
fn cause_of_change(site: &Site, fact: &Fact, change: &Change) -> Option<Refused>
    ensures { result ≡ cause_of_change site.now fact.now change.now }
{
    if !change.fits(fact) {
        Some(Refused::Mismatch)
    } else if is_outside_table(site, &fact.changed(*change)) {
        Some(Refused::Range)
    } else {
        None
    }
}

// The first cause to refuse a closing.
fn judge_closing(periods: &Periods, name: &Name) -> Option<Refused>
    ensures { result ≡ refusal_behind One [] [] periods.now [] (Closes name.now) }
{
    if !periods.has_name(name) {
        Some(Refused::Unknown)
    } else if periods.is_closed(name) {
        Some(Refused::Closed)
    } else {
        None
    }
}

// The first cause to refuse an assay.
fn judge_assay(site: &Site, periods: &Periods, assays: &Assays, assay: &Assay) -> Option<Refused>
    ensures { result ≡ refusal_behind (version_of site.now) site.now [] periods.now assays.now
        (Effect.Assays assay.now) }
{
    if site.kind_of(&assay.stream).is_none() || !periods.has_name(&assay.period) {
        Some(Refused::Unknown)
    } else if assays.has_like(assay) {
        Some(Refused::Duplicate)
    } else if periods.is_closed(&assay.period) {
        Some(Refused::Closed)
    } else if periods.is_unserved(site.service_of(&assay.stream), &assay.period) {
        Some(Refused::Range)
    } else if assays.len() as usize >= MOST_ASSAYS {
        Some(Refused::Full)
    } else {
        None
    }
}

// The kind of the stream, or of the tank, that a fact names, if one is declared.
fn kind_of_fact(site: &Site, fact: &Fact) -> Option<ArcKind>
    ensures { result ≡ kind_of site.now (named_by fact.now) }
{
    match fact {
        Fact::Reading { stream, .. } => site.kind_of(stream),
        Fact::Transfer { stream, .. } => site.kind_of(stream),
        Fact::Dip { tank, .. } => site.kind_of(tank),
    }
}

// Whether a reading or transfer isn't of a stream, or a dip isn't of a tank.
fn names_other(fact: &Fact, kind: Option<ArcKind>) -> bool
    ensures { result ≡ names_other fact.now kind }
{
    match (fact, kind) {
        (_, None) => true,
        (Fact::Dip { .. }, Some(kind)) => kind != ArcKind::Tank,
        (_, Some(kind)) => kind == ArcKind::Tank,
    }
}

// Whether a reading isn't of a metered stream, or a transfer isn't of a batch stream.
fn is_of_other_kind(fact: &Fact, kind: Option<ArcKind>) -> bool
    ensures { result ≡ is_of_other_kind fact.now kind }
{
    match fact {
        Fact::Reading { .. } => kind != Some(ArcKind::Metered),
        Fact::Transfer { .. } => kind != Some(ArcKind::Batch),
        Fact::Dip { .. } => false,
    }
}

// Whether it is a dip whose level is outside the table of its tank.
fn is_outside_table(site: &Site, fact: &Fact) -> bool
    ensures { result ≡ is_outside_table site.now fact.now }
{
    match fact {
        Fact::Dip { tank, mm, .. } => match site.strap_of(tank) {
            Some(table) => table.volume(*mm).is_none(),
            None => true,
        },
        _ => false,
    }
}
