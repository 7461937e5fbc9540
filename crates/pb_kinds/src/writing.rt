// Effects written as records, by the table of kinds.

ghost use Rattle.std.specs.Prelude.{◌≡◌, ◌≤◌, IfOk, None, Ok, Option, Some, true};
ghost use Rattle.pb_limits.specs.Limits.{most_freedom};
ghost use Rattle.pb_limits.specs.Ranges.{IsBaseVariance, IsCriticalValue, IsDensity, IsGrams, IsLevel, IsVariance, IsVolume};
ghost use Rattle.pb_rows.specs.Date.{IsDay};
ghost use Rattle.pb_rows.specs.Records.{without_trailing_empty};
ghost use Rattle.pb_site.specs.Row.{IsArcBase, IsDeclaredInRange, arc_kind};
ghost use Rattle.pb_site.specs.Service.{IsService};
ghost use Rattle.pb_site.specs.declared.declared.Declared.TheVariants as site;
ghost use Rattle.pb_site.specs.declared.declared.Version.{Version};
ghost use Rattle.pb_facts.specs.Changes.{IsChangeInRange};
ghost use Rattle.pb_facts.specs.Fact.{IsFactInRange};
ghost use Rattle.pb_facts.specs.declared.fact.Change.TheVariants as changes;
ghost use Rattle.pb_facts.specs.declared.fact.Fact.TheVariants as facts;
ghost use Rattle.pb_facts.specs.Grade.{IsGrade};
ghost use Rattle.pb_kinds.specs.Ranges.{IsEditInRange, IsEffectInRange};
ghost use Rattle.pb_kinds.specs.Requests.{request_in};
ghost use Rattle.pb_kinds.specs.There.{WritesEffect, served_stream_kind, stream_kind};
ghost use Rattle.pb_kinds.specs.Versions.{may_do};
ghost use Rattle.pb_kinds.specs.declared.rows.Edit.TheVariants as edits;
ghost use Rattle.pb_kinds.specs.declared.rows.Effect.TheVariants.{Assays, Books, Closes, Declares, Edits, Opens};
ghost use Rattle.pb_kinds.specs.declared.rows.Request.TheVariants.{Store};

use crate::rows::{Edit, Effect};
use pb_facts::{Assay, Change, Fact};
use pb_form::{SessionKind, Value, session_record};
use pb_rows::{Name, Reason, Row};
use pb_site::{Declared, Kind, Service};
use std::alloc::{AllocError, Global};

/// The record of an effect: in each session whose rows may do the effect, the record asks to store it, and it doesn't end with an
/// empty field.
pub fn write_effect(alloc: Global, effect: &Effect) -> Result<Row, AllocError>
    requires { IsEffectInRange effect.now }
    ensures asks { IfOk result (λ row. (version : Option Version) → may_do version effect.now ≡ true
        → request_in version row ≡ Ok (Store effect.now)) }
    ensures filled { IfOk result (λ row. without_trailing_empty row ≡ row) }
{
    match effect {
        Effect::Declares(declared) => declaration(alloc, declared),
        Effect::Opens { name, first, last } => period(alloc, name, *first, *last),
        Effect::Books { fact, late } => booking(alloc, fact, *late),
        Effect::Edits { id, edit, reason } => editing(alloc, id, edit, reason),
        Effect::Closes(name) => close(alloc, name),
        Effect::Assays(known) => assay(alloc, known),
    }
}

// The record of a declaration.
fn declaration(alloc: Global, declared: &Declared) -> Result<Row, AllocError>
    requires { IsDeclaredInRange declared.now }
    ensures { IfOk result (WritesEffect (Declares declared.now)) }
{
    match declared {
        Declared::Version2 => version(alloc),
        Declared::Unit { name } => unit(alloc, name),
        Declared::Boundary { name } => boundary(alloc, name),
        Declared::Tank {
            name,
            base,
            service,
        } => match service {
            None => tank(alloc, name, *base),
            Some(service) => tank_in_service(alloc, name, *base, service),
        },
        Declared::Strap { tank, mm, ml } => strap(alloc, tank, *mm, *ml),
        Declared::Stream {
            name,
            from,
            to,
            kind,
            base,
            service,
        } => match service {
            None => stream(alloc, name, from, to, *kind, *base),
            Some(service) => stream_in_service(alloc, name, from, to, *kind, *base, service),
        },
        Declared::CritGlobal { dof, value } => critical_global(alloc, *dof, *value),
        Declared::CritNodal { value } => critical_nodal(alloc, *value),
        Declared::CritMeasure { value } => critical_measure(alloc, *value),
    }
}

// The record of a fact, on time or late.
fn booking(alloc: Global, fact: &Fact, late: bool) -> Result<Row, AllocError>
    requires { IsFactInRange fact.now }
    ensures { IfOk result (WritesEffect (Books fact.now late)) }
{
    match fact {
        Fact::Reading {
            id,
            stream,
            day,
            grams,
            variance,
        } => reading(alloc, id, stream, *day, *grams, *variance, late),
        Fact::Transfer {
            id,
            stream,
            first,
            last,
            grams,
            variance,
        } => transfer(alloc, id, stream, *first, *last, *grams, *variance, late),
        Fact::Dip {
            id,
            tank,
            day,
            mm,
            density,
            variance,
        } => dip(alloc, id, tank, *day, *mm, *density, *variance, late),
    }
}

// `version,2`
fn version(alloc: Global) -> Result<Row, AllocError>
    ensures { IfOk result (WritesEffect (Declares site.Version2)) }
{
    session_record(
        alloc,
        SessionKind::Version,
        &[Value::Word(0), Value::Word(0)],
    )
}

// `boundary,NAME`
fn boundary(alloc: Global, name: &Name) -> Result<Row, AllocError>
    ensures { IfOk result (WritesEffect (Declares (site.Boundary name.now))) }
{
    session_record(
        alloc,
        SessionKind::Boundary,
        &[Value::Word(0), Value::name(name)],
    )
}

// `unit,NAME`
fn unit(alloc: Global, name: &Name) -> Result<Row, AllocError>
    ensures { IfOk result (WritesEffect (Declares (site.Unit name.now))) }
{
    session_record(
        alloc,
        SessionKind::Unit,
        &[Value::Word(0), Value::name(name)],
    )
}

// `tank,NAME,BASEVAR`
fn tank(alloc: Global, name: &Name, base: i128) -> Result<Row, AllocError>
    requires { IsBaseVariance base }
    ensures { IfOk result (WritesEffect (Declares (site.Tank name.now base None))) }
{
    session_record(
        alloc,
        SessionKind::Tank,
        &[Value::Word(0), Value::name(name), Value::Number(base)],
    )
}

// `tank,NAME,BASEVAR,SINCE,UNTIL`
fn tank_in_service(
    alloc: Global,
    name: &Name,
    base: i128,
    service: &Service,
) -> Result<Row, AllocError>
    requires base { IsBaseVariance base }
    requires service { IsService service.now }
    ensures { IfOk result
        (WritesEffect (Declares (site.Tank name.now base (Some service.now)))) }
{
    session_record(
        alloc,
        SessionKind::TankInService,
        &[
            Value::Word(0),
            Value::name(name),
            Value::Number(base),
            Value::Day(service.since),
            Value::Day(service.until),
        ],
    )
}

// `strap,TANK,MM,ML`
fn strap(alloc: Global, tank: &Name, mm: i64, ml: i64) -> Result<Row, AllocError>
    requires level { IsLevel mm }
    requires volume { IsVolume ml }
    ensures { IfOk result (WritesEffect (Declares (site.Strap tank.now mm ml))) }
{
    session_record(
        alloc,
        SessionKind::Strap,
        &[
            Value::Word(0),
            Value::name(tank),
            Value::Number(i128::from(mm)),
            Value::Number(i128::from(ml)),
        ],
    )
}

// `stream,NAME,FROM,TO,KIND,BASEVAR`
fn stream<'a>(
    alloc: Global,
    name: &'a Name,
    from: &'a Name,
    to: &'a Name,
    kind: Kind,
    base: i128,
) -> Result<Row, AllocError>
    requires { IsArcBase (arc_kind kind) base }
    ensures { IfOk result
        (WritesEffect (Declares (site.Stream name.now from.now to.now kind base None))) }
{
    session_record(
        alloc,
        stream_kind(kind),
        &[
            Value::Word(0),
            Value::name(name),
            Value::name(from),
            Value::name(to),
            Value::Word(0),
            Value::Number(base),
        ],
    )
}

// `stream,NAME,FROM,TO,KIND,BASEVAR,SINCE,UNTIL`
fn stream_in_service<'a>(
    alloc: Global,
    name: &'a Name,
    from: &'a Name,
    to: &'a Name,
    kind: Kind,
    base: i128,
    service: &Service,
) -> Result<Row, AllocError>
    requires base { IsArcBase (arc_kind kind) base }
    requires service { IsService service.now }
    ensures { IfOk result (WritesEffect
        (Declares (site.Stream name.now from.now to.now kind base (Some service.now)))) }
{
    session_record(
        alloc,
        served_stream_kind(kind),
        &[
            Value::Word(0),
            Value::name(name),
            Value::name(from),
            Value::name(to),
            Value::Word(0),
            Value::Number(base),
            Value::Day(service.since),
            Value::Day(service.until),
        ],
    )
}

// The kind of the row of a stream with days of service.
fn served_stream_kind(kind: Kind) -> SessionKind
    ensures { result ≡ served_stream_kind kind }
{
    match kind {
        Kind::Metered => SessionKind::MeteredInService,
        Kind::Batch => SessionKind::BatchInService,
        Kind::Plain => SessionKind::PlainInService,
    }
}

// The kind of the row of a stream.
fn stream_kind(kind: Kind) -> SessionKind
    ensures { result ≡ stream_kind kind }
{
    match kind {
        Kind::Metered => SessionKind::StreamMetered,
        Kind::Batch => SessionKind::StreamBatch,
        Kind::Plain => SessionKind::StreamPlain,
    }
}

// `critical,global,DOF,VALUE`
fn critical_global(alloc: Global, dof: u32, value: i64) -> Result<Row, AllocError>
    requires some { 1 ≤ dof }
    requires most { dof ≤ most_freedom }
    requires value { IsCriticalValue value }
    ensures { IfOk result (WritesEffect (Declares (site.CritGlobal dof value))) }
{
    session_record(
        alloc,
        SessionKind::CriticalGlobal,
        &[
            Value::Word(0),
            Value::Word(0),
            Value::Number(i128::from(dof)),
            Value::Number(i128::from(value)),
        ],
    )
}

// `critical,nodal,VALUE`
fn critical_nodal(alloc: Global, value: i64) -> Result<Row, AllocError>
    requires { IsCriticalValue value }
    ensures { IfOk result (WritesEffect (Declares (site.CritNodal value))) }
{
    session_record(
        alloc,
        SessionKind::CriticalNodal,
        &[
            Value::Word(0),
            Value::Word(0),
            Value::Number(i128::from(value)),
        ],
    )
}

// `critical,measure,VALUE`
fn critical_measure(alloc: Global, value: i64) -> Result<Row, AllocError>
    requires { IsCriticalValue value }
    ensures { IfOk result (WritesEffect (Declares (site.CritMeasure value))) }
{
    session_record(
        alloc,
        SessionKind::CriticalMeasure,
        &[
            Value::Word(0),
            Value::Word(0),
            Value::Number(i128::from(value)),
        ],
    )
}

// `period,NAME,FIRST,LAST`
fn period(alloc: Global, name: &Name, first: i32, last: i32) -> Result<Row, AllocError>
    requires begins { IsDay first }
    requires ends { IsDay last }
    ensures { IfOk result (WritesEffect (Opens name.now first last)) }
{
    session_record(
        alloc,
        SessionKind::Period,
        &[
            Value::Word(0),
            Value::name(name),
            Value::Day(first),
            Value::Day(last),
        ],
    )
}

// `reading,ID,STREAM,DATE,GRAMS,VARIANCE`, after `late,` if it comes late
fn reading<'a>(
    alloc: Global,
    id: &'a Name,
    stream: &'a Name,
    day: i32,
    grams: i64,
    variance: i128,
    late: bool,
) -> Result<Row, AllocError>
    requires day { IsDay day }
    requires grams { IsGrams grams }
    requires variance { IsVariance variance }
    ensures { IfOk result
        (WritesEffect (Books (facts.Reading id.now stream.now day grams variance) late)) }
{
    let values = [
        Value::Word(0),
        Value::Word(0),
        Value::name(id),
        Value::name(stream),
        Value::Day(day),
        Value::Number(i128::from(grams)),
        Value::Number(variance),
    ];
    if late {
        session_record(alloc, SessionKind::LateReading, &values)
    } else {
        session_record(alloc, SessionKind::Reading, &values[1..])
    }
}

// `transfer,ID,STREAM,FIRST,LAST,GRAMS,VARIANCE`, after `late,` if it comes late
fn transfer<'a>(
    alloc: Global,
    id: &'a Name,
    stream: &'a Name,
    first: i32,
    last: i32,
    grams: i64,
    variance: i128,
    late: bool,
) -> Result<Row, AllocError>
    requires begins { IsDay first }
    requires ends { IsDay last }
    requires grams { IsGrams grams }
    requires variance { IsVariance variance }
    ensures { IfOk result
        (WritesEffect (Books (facts.Transfer id.now stream.now first last grams variance) late)) }
{
    let values = [
        Value::Word(0),
        Value::Word(0),
        Value::name(id),
        Value::name(stream),
        Value::Day(first),
        Value::Day(last),
        Value::Number(i128::from(grams)),
        Value::Number(variance),
    ];
    if late {
        session_record(alloc, SessionKind::LateTransfer, &values)
    } else {
        session_record(alloc, SessionKind::Transfer, &values[1..])
    }
}

// `dip,ID,TANK,DATE,MM,DENSITY,VARIANCE`, after `late,` if it comes late
fn dip<'a>(
    alloc: Global,
    id: &'a Name,
    tank: &'a Name,
    day: i32,
    mm: i64,
    density: i64,
    variance: i128,
    late: bool,
) -> Result<Row, AllocError>
    requires day { IsDay day }
    requires level { IsLevel mm }
    requires density { IsDensity density }
    requires variance { IsVariance variance }
    ensures { IfOk result
        (WritesEffect (Books (facts.Dip id.now tank.now day mm density variance) late)) }
{
    let values = [
        Value::Word(0),
        Value::Word(0),
        Value::name(id),
        Value::name(tank),
        Value::Day(day),
        Value::Number(i128::from(mm)),
        Value::Number(i128::from(density)),
        Value::Number(variance),
    ];
    if late {
        session_record(alloc, SessionKind::LateDip, &values)
    } else {
        session_record(alloc, SessionKind::Dip, &values[1..])
    }
}

// The record of an edit of the fact of an id.
fn editing(alloc: Global, id: &Name, edit: &Edit, reason: &Reason) -> Result<Row, AllocError>
    requires { IsEditInRange edit.now }
    ensures { IfOk result (WritesEffect (Edits id.now edit.now reason.now)) }
{
    match edit {
        Edit::Change(Change::Amount { grams, variance }) => {
            amend_amount(alloc, id, *grams, *variance, reason)
        }
        Edit::Change(
            Change::Level {
                mm,
                density,
                variance,
            },
        ) => amend_level(alloc, id, *mm, *density, *variance, reason),
        Edit::Strike => strike(alloc, id, reason),
    }
}

// `amend,ID,GRAMS,VARIANCE,REASON`
fn amend_amount<'a>(
    alloc: Global,
    id: &'a Name,
    grams: i64,
    variance: i128,
    reason: &'a Reason,
) -> Result<Row, AllocError>
    requires grams { IsGrams grams }
    requires variance { IsVariance variance }
    ensures { IfOk result
        (WritesEffect (Edits id.now (edits.Change (changes.Amount grams variance)) reason.now)) }
{
    session_record(
        alloc,
        SessionKind::AmendAmount,
        &[
            Value::Word(0),
            Value::name(id),
            Value::Number(i128::from(grams)),
            Value::Number(variance),
            Value::reason(reason),
        ],
    )
}

// `amend,ID,MM,DENSITY,VARIANCE,REASON`
fn amend_level<'a>(
    alloc: Global,
    id: &'a Name,
    mm: i64,
    density: i64,
    variance: i128,
    reason: &'a Reason,
) -> Result<Row, AllocError>
    requires level { IsLevel mm }
    requires density { IsDensity density }
    requires variance { IsVariance variance }
    ensures { IfOk result (WritesEffect
        (Edits id.now (edits.Change (changes.Level mm density variance)) reason.now)) }
{
    session_record(
        alloc,
        SessionKind::AmendLevel,
        &[
            Value::Word(0),
            Value::name(id),
            Value::Number(i128::from(mm)),
            Value::Number(i128::from(density)),
            Value::Number(variance),
            Value::reason(reason),
        ],
    )
}

// `strike,ID,REASON`
fn strike<'a>(alloc: Global, id: &'a Name, reason: &'a Reason) -> Result<Row, AllocError>
    ensures { IfOk result (WritesEffect (Edits id.now edits.Strike reason.now)) }
{
    session_record(
        alloc,
        SessionKind::Strike,
        &[Value::Word(0), Value::name(id), Value::reason(reason)],
    )
}

// `close,PERIOD`
fn close(alloc: Global, period: &Name) -> Result<Row, AllocError>
    ensures { IfOk result (WritesEffect (Closes period.now)) }
{
    session_record(
        alloc,
        SessionKind::Close,
        &[Value::Word(0), Value::name(period)],
    )
}

// `assay,COMPONENT,STREAM,PERIOD,PPM,VARIANCE`
fn assay(alloc: Global, assay: &Assay) -> Result<Row, AllocError>
    requires { IsGrade assay.now.grade }
    ensures { IfOk result (WritesEffect (Assays assay.now)) }
{
    session_record(
        alloc,
        SessionKind::Assay,
        &[
            Value::Word(0),
            Value::name(&assay.component),
            Value::name(&assay.stream),
            Value::name(&assay.period),
            Value::Number(i128::from(assay.grade.ppm)),
            Value::Number(i128::from(assay.grade.variance)),
        ],
    )
}
