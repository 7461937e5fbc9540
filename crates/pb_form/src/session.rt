// The rows of a session: the columns of each kind.

ghost use Rattle.std.specs.Prelude.{◌≡◌, ◌<◌, ◌≤◌, drop, length, map, slice_get, IfOk};
ghost use Rattle.pb_form.specs.Given.{values_as};
ghost use Rattle.pb_form.specs.Laws.{IsOfKind};
ghost use Rattle.pb_form.specs.Seen.{schema_seen};
ghost use Rattle.pb_form.specs.SessionRows.{kinds_of_version_1, kinds_of_version_2, session_columns, session_kinds, session_schema, session_schemas, session_told};
ghost use Rattle.pb_form.specs.Telling.{is_of};
ghost use Rattle.pb_form.specs.Texts.{texts_of};
ghost use Rattle.pb_form.specs.Writing.{FitEach, Writes};

use crate::column::{Column, Holds, Schema};
use crate::fault::FormFault;
use crate::fields::Fields;
use crate::table::{column, number, schema, word};
use crate::telling::{is_of, tell};
use crate::value::{ROOM, Value};
use crate::writing::write;
use pb_limits::{
    MOST_CRITICAL, MOST_DENSITY, MOST_FREEDOM, MOST_GRADE, MOST_GRADE_VARIANCE, MOST_GRAMS,
    MOST_LEVEL, MOST_ROW_VARIANCE, MOST_VOLUME,
};
use pb_rows::Row;
use std::alloc::{AllocError, Global};

/// The kinds of the rows of a session. The record of the first kind makes it a session of version 2. Version 1 has the kinds from
/// `Unit` on; version 2 also has those between `Version` and `Unit`.
#[derive(Clone, Copy, PartialEq, Eq, Debug)]
pub enum SessionKind {
    Version,
    Boundary,
    TankInService,
    MeteredInService,
    BatchInService,
    PlainInService,
    Unit,
    Tank,
    Strap,
    StreamMetered,
    StreamBatch,
    StreamPlain,
    Period,
    CriticalGlobal,
    CriticalNodal,
    CriticalMeasure,
    Reading,
    Transfer,
    Dip,
    LateReading,
    LateTransfer,
    LateDip,
    AmendAmount,
    AmendLevel,
    Strike,
    Close,
    Assay,
    Design,
    Report,
    History,
    Advise,
    Window,
    Component,
}

// The kinds in the order of their schemas.
static KINDS: [SessionKind; 33] = [
    SessionKind::Version,
    SessionKind::Boundary,
    SessionKind::TankInService,
    SessionKind::MeteredInService,
    SessionKind::BatchInService,
    SessionKind::PlainInService,
    SessionKind::Unit,
    SessionKind::Tank,
    SessionKind::Strap,
    SessionKind::StreamMetered,
    SessionKind::StreamBatch,
    SessionKind::StreamPlain,
    SessionKind::Period,
    SessionKind::CriticalGlobal,
    SessionKind::CriticalNodal,
    SessionKind::CriticalMeasure,
    SessionKind::Reading,
    SessionKind::Transfer,
    SessionKind::Dip,
    SessionKind::LateReading,
    SessionKind::LateTransfer,
    SessionKind::LateDip,
    SessionKind::AmendAmount,
    SessionKind::AmendLevel,
    SessionKind::Strike,
    SessionKind::Close,
    SessionKind::Assay,
    SessionKind::Design,
    SessionKind::Report,
    SessionKind::History,
    SessionKind::Advise,
    SessionKind::Window,
    SessionKind::Component,
];

// The places of the first kind of version 2 and of the first kind of version 1.
const FIRST_OF_VERSION_2: usize = 1;

const FIRST_OF_VERSION_1: usize = 6;

// The greatest cost of a meter, in any unit.
pub(crate) const MOST_METER_COST: i128 = 1_000_000_000_000;

const BASE: Column = number!("base", 1, MOST_ROW_VARIANCE);

const NO_BASE: Column = number!("base", 0, 0);

const VARIANCE: Column = number!("variance", 0, MOST_ROW_VARIANCE);

const GRAMS: Column = number!("grams", -(MOST_GRAMS as i128), MOST_GRAMS as i128);

const MM: Column = number!("mm", 0, MOST_LEVEL as i128);

const ML: Column = number!("ml", 0, MOST_VOLUME as i128);

const DENSITY: Column = number!("density", 1, MOST_DENSITY as i128);

const PPM: Column = number!("ppm", 0, MOST_GRADE as i128);

const GRADE_VARIANCE: Column = number!("variance", 0, MOST_GRADE_VARIANCE as i128);

const COST: Column = number!("cost", 0, MOST_METER_COST);

const DOF: Column = number!("dof", 1, MOST_FREEDOM as i128);

const VALUE: Column = number!("value", 0, MOST_CRITICAL as i128);

const ID: Column = column!("id", Holds::Name);

const NAME: Column = column!("name", Holds::Name);

const TANK: Column = column!("tank", Holds::Name);

const STREAM: Column = column!("stream", Holds::Name);

const FROM: Column = column!("from", Holds::Name);

const TO: Column = column!("to", Holds::Name);

const PERIOD: Column = column!("period", Holds::Name);

const FIRST_PERIOD: Column = column!("first", Holds::Name);

const LAST_PERIOD: Column = column!("last", Holds::Name);

const COMPONENT: Column = column!("component", Holds::Name);

const REASON: Column = column!("reason", Holds::Reason);

const DAY: Column = column!("day", Holds::Date);

const FIRST: Column = column!("first", Holds::Date);

const LAST: Column = column!("last", Holds::Date);

const SINCE: Column = column!("since", Holds::Date);

const UNTIL: Column = column!("until", Holds::Date);

// The schemas of all kinds, in their order.
static SCHEMAS: [Schema; 33] = [
    schema!(word!("row", "version"), word!("number", "2")),
    schema!(word!("row", "boundary"), NAME),
    schema!(word!("row", "tank"), NAME, BASE, SINCE, UNTIL),
    schema!(
        word!("row", "stream"),
        NAME,
        FROM,
        TO,
        word!("word", "metered"),
        BASE,
        SINCE,
        UNTIL
    ),
    schema!(
        word!("row", "stream"),
        NAME,
        FROM,
        TO,
        word!("word", "batch"),
        BASE,
        SINCE,
        UNTIL
    ),
    schema!(
        word!("row", "stream"),
        NAME,
        FROM,
        TO,
        word!("word", "plain"),
        NO_BASE,
        SINCE,
        UNTIL
    ),
    schema!(word!("row", "unit"), NAME),
    schema!(word!("row", "tank"), NAME, BASE),
    schema!(word!("row", "strap"), TANK, MM, ML),
    schema!(
        word!("row", "stream"),
        NAME,
        FROM,
        TO,
        word!("word", "metered"),
        BASE
    ),
    schema!(
        word!("row", "stream"),
        NAME,
        FROM,
        TO,
        word!("word", "batch"),
        BASE
    ),
    schema!(
        word!("row", "stream"),
        NAME,
        FROM,
        TO,
        word!("word", "plain"),
        NO_BASE
    ),
    schema!(word!("row", "period"), NAME, FIRST, LAST),
    schema!(
        word!("row", "critical"),
        word!("word", "global"),
        DOF,
        VALUE
    ),
    schema!(word!("row", "critical"), word!("word", "nodal"), VALUE),
    schema!(word!("row", "critical"), word!("word", "measure"), VALUE),
    schema!(word!("row", "reading"), ID, STREAM, DAY, GRAMS, VARIANCE),
    schema!(
        word!("row", "transfer"),
        ID,
        STREAM,
        FIRST,
        LAST,
        GRAMS,
        VARIANCE
    ),
    schema!(word!("row", "dip"), ID, TANK, DAY, MM, DENSITY, VARIANCE),
    schema!(
        word!("row", "late"),
        word!("word", "reading"),
        ID,
        STREAM,
        DAY,
        GRAMS,
        VARIANCE
    ),
    schema!(
        word!("row", "late"),
        word!("word", "transfer"),
        ID,
        STREAM,
        FIRST,
        LAST,
        GRAMS,
        VARIANCE
    ),
    schema!(
        word!("row", "late"),
        word!("word", "dip"),
        ID,
        TANK,
        DAY,
        MM,
        DENSITY,
        VARIANCE
    ),
    schema!(word!("row", "amend"), ID, GRAMS, VARIANCE, REASON),
    schema!(word!("row", "amend"), ID, MM, DENSITY, VARIANCE, REASON),
    schema!(word!("row", "strike"), ID, REASON),
    schema!(word!("row", "close"), PERIOD),
    schema!(
        word!("row", "assay"),
        COMPONENT,
        STREAM,
        PERIOD,
        PPM,
        GRADE_VARIANCE
    ),
    schema!(word!("row", "design")),
    schema!(word!("row", "report"), PERIOD),
    schema!(word!("row", "history"), PERIOD),
    Schema {
        columns: &[word!("row", "advise")],
        tail: &[STREAM, COST],
    },
    schema!(word!("row", "window"), FIRST_PERIOD, LAST_PERIOD),
    schema!(word!("row", "component"), COMPONENT, PERIOD),
];

/// The schemas of the kinds of a session, in the order of the kinds.
pub fn session_schemas() -> &'static [Schema]
    ensures { map schema_seen result.now ≡ session_schemas }
{
    &SCHEMAS
}

/// The schema of a kind.
pub fn session_schema(kind: SessionKind) -> &'static Schema
    ensures value { schema_seen result.now ≡ session_schema kind }
    ensures few { length result.now.columns.now ≤ ROOM }
{
    let schemas = session_schemas();
    &schemas[place_of(kind)]
}

// The place of a kind among all kinds.
fn place_of(kind: SessionKind) -> usize
    ensures { slice_get session_kinds result ≡ Some kind }
{
    kind as usize
}

/// The kind of a record of a session of version 1, or `Kind` or `Fields`.
pub fn kind_of_version_1(fields: &Fields) -> Result<SessionKind, FormFault>
    ensures { result ≡ session_told kinds_of_version_1 fields.now }
{
    kind_from(FIRST_OF_VERSION_1, fields)
}

/// The kind of a record of a session of version 2, or `Kind` or `Fields`.
pub fn kind_of_version_2(fields: &Fields) -> Result<SessionKind, FormFault>
    ensures { result ≡ session_told kinds_of_version_2 fields.now }
{
    kind_from(FIRST_OF_VERSION_2, fields)
}

// The kind of a record among those from a place on, or `Kind` or `Fields`. A reading is tried first: most records are readings.
fn kind_from(start: usize, fields: &Fields) -> Result<SessionKind, FormFault>
    requires { start ≤ FIRST_OF_VERSION_1 }
    ensures { result ≡ session_told (drop start session_kinds) fields.now }
{
    if is_of_kind(SessionKind::Reading, fields) {
        return Ok(SessionKind::Reading);
    }
    let place = tell(&session_schemas()[start..], fields)?;
    Ok(KINDS[start + place])
}

/// Whether a record has the words and the number of fields of a kind.
pub fn is_of_kind(kind: SessionKind, fields: &Fields) -> bool
    ensures { result ≡ is_of fields.now (session_schema kind) }
{
    is_of(session_schema(kind), fields)
}

/// The record of a kind that writes values, one for each column: their texts. It reads back as the values, it is of this kind, and it
/// doesn't end with an empty field.
pub fn session_record(alloc: Global, kind: SessionKind, values: &[Value]) -> Result<Row, AllocError>
    requires each { length values.now ≡ length (session_columns kind) }
    requires fit { FitEach (session_columns kind) (values_as (session_columns kind) values.now) }
    ensures value { IfOk result (Writes (session_schema kind)
        (values_as (session_columns kind) values.now)) }
    ensures fields { IfOk result (λ row. row ≡ texts_of (session_columns kind)
        (values_as (session_columns kind) values.now)) }
    ensures kind { IfOk result (IsOfKind kind) }
{
    write(alloc, session_schema(kind), values)
}
