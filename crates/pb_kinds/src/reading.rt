// What a record asks for, by the table of kinds.

ghost use Rattle.std.specs.Prelude.{◌≡◌, ◌≤◌, IfOk, IfSome, None, Ok, Some, false, true};
ghost use Rattle.pb_form.specs.Reading.{row_read};
ghost use Rattle.pb_form.specs.SessionRows.{session_columns, session_schema, session_told};
ghost use Rattle.pb_form.specs.Telling.{is_of};
ghost use Rattle.pb_form.specs.Writing.{FitEach};
ghost use Rattle.pb_form.specs.declared.session.SessionKind.TheVariants as kinds;
ghost use Rattle.pb_kinds.specs.Ranges.{IsRequestInRange};
ghost use Rattle.pb_kinds.specs.Requests.{asked_by, asked_in, books, declares, request_in, request_of, service_from, stream_of};
ghost use Rattle.pb_kinds.specs.There.{IsNameThere, kinds_of, request_by};
ghost use Rattle.pb_kinds.specs.Versions.{may_ask};

use crate::facts::{dip_from, reading_from, reading_in, transfer_from};
use crate::rows::{Edit, Effect, Request};
use crate::there::{day_there, dof_there, long_there, name_there, number_there, reason_there};
use pb_facts::{Assay, Change, Fact, Grade};
use pb_form::{
    Fields, FormFault, SessionKind, Values, is_of_kind, kind_of_version_1, kind_of_version_2, read,
    session_schema,
};
use pb_rows::Row;
use pb_site::{Declared, Kind, Service, Version};

/// What a record asks for in a session of a version, or the first fault of its fields. Without a version no row is stored yet: the
/// record may state the version, and is read as a record of version 1 otherwise. Empty fields at its end don't count.
pub fn read_request(version: Option<Version>, row: &Row) -> Result<Request, FormFault>
    ensures value { result ≡ request_in version row.now }
    ensures in_range { IfOk result IsRequestInRange }
    ensures may { IfOk result (λ request. may_ask version request ≡ true) }
{
    let fields = Fields::filled(row);
    match version {
        None => read_first(&fields),
        Some(version) => read_fields(version, &fields),
    }
}

/// The reading that a record books in a session of a version, if it is a row of one and its fields have no fault. `None` says nothing
/// about the record. Most records are such readings: this way they need no request.
pub fn read_reading(version: Option<Version>, row: &Row) -> Option<Fact>
    ensures value { IfSome result (λ fact. request_in version row.now ≡ Ok (books false fact)) }
    ensures in_range { IfSome result (λ fact. IsRequestInRange (books false fact)) }
    ensures may { IfSome result (λ fact. may_ask version (books false fact) ≡ true) }
{
    let fields = Fields::filled(row);
    match version {
        None => None,
        Some(version) => match kind_of(version, &fields) {
            Ok(SessionKind::Reading) => reading_in(&fields),
            _ => None,
        },
    }
}

// What fields ask for before a row is stored.
fn read_first(fields: &Fields) -> Result<Request, FormFault>
    ensures value { result ≡ asked_in None fields.now }
    ensures in_range { IfOk result IsRequestInRange }
    ensures may { IfOk result (λ request. may_ask None request ≡ true) }
{
    if is_of_kind(SessionKind::Version, fields) {
        Ok(declares(Declared::Version2))
    } else {
        read_fields(Version::One, fields)
    }
}

// What fields ask for in a session of a version.
#[inline(always)]
fn read_fields(version: Version, fields: &Fields) -> Result<Request, FormFault>
    ensures value { result ≡ asked_by (kinds_of version) fields.now }
    ensures in_range { IfOk result IsRequestInRange }
    ensures may { IfOk result (λ request. may_ask (Some version) request ≡ true) }
{
    if fields.len() == 0 {
        return Ok(Request::Blank);
    }
    let kind = kind_of(version, fields)?;
    asked_of(kind, fields)
}

// What the fields of a row of a kind ask for. Most rows are readings, and most readings have no fault: their fields are read once.
fn asked_of(kind: SessionKind, fields: &Fields) -> Result<Request, FormFault>
    requires { is_of fields.now (session_schema kind) ≡ true }
    ensures value { result ≡ request_by kind (row_read (session_schema kind) fields.now) }
    ensures in_range { IfOk result IsRequestInRange }
{
    match kind {
        SessionKind::Reading => match reading_in(fields) {
            Some(reading) => Ok(books(false, reading)),
            None => asked_by_values(kind, fields),
        },
        _ => asked_by_values(kind, fields),
    }
}

// What the fields of a row of a kind ask for, by their values.
fn asked_by_values(kind: SessionKind, fields: &Fields) -> Result<Request, FormFault>
    ensures value { result ≡ request_by kind (row_read (session_schema kind) fields.now) }
    ensures in_range { IfOk result IsRequestInRange }
{
    match &read(session_schema(kind), fields) {
        Ok(values) => Ok(request_of(kind, values)),
        Err(fault) => Err(*fault),
    }
}

// The kind of a record of a session of a version.
fn kind_of(version: Version, fields: &Fields) -> Result<SessionKind, FormFault>
    ensures { result ≡ session_told (kinds_of version) fields.now }
{
    match version {
        Version::One => kind_of_version_1(fields),
        Version::Two => kind_of_version_2(fields),
    }
}

// What a record of a kind asks for, by its values.
#[inline(always)]
fn request_of(kind: SessionKind, values: &Values) -> Request
    requires { FitEach (session_columns kind) values.now }
    ensures { result ≡ request_of kind values.now }
{
    match kind {
        SessionKind::Version => declares(Declared::Version2),
        SessionKind::Boundary => boundary(values),
        SessionKind::TankInService => tank_in_service(values),
        SessionKind::MeteredInService => stream(
            Kind::Metered,
            Some(service_from(values, 6)),
            values,
        ),
        SessionKind::BatchInService => stream(Kind::Batch, Some(service_from(values, 6)), values),
        SessionKind::PlainInService => stream(Kind::Plain, Some(service_from(values, 6)), values),
        SessionKind::Unit => unit(values),
        SessionKind::Tank => tank(values),
        SessionKind::Strap => strap(values),
        SessionKind::StreamMetered => stream(Kind::Metered, None, values),
        SessionKind::StreamBatch => stream(Kind::Batch, None, values),
        SessionKind::StreamPlain => stream(Kind::Plain, None, values),
        SessionKind::Period => period(values),
        SessionKind::CriticalGlobal => critical_global(values),
        SessionKind::CriticalNodal => critical_nodal(values),
        SessionKind::CriticalMeasure => critical_measure(values),
        SessionKind::Reading => books(false, reading_from(values, 1)),
        SessionKind::Transfer => books(false, transfer_from(values, 1)),
        SessionKind::Dip => books(false, dip_from(values, 1)),
        SessionKind::LateReading => books(true, reading_from(values, 2)),
        SessionKind::LateTransfer => books(true, transfer_from(values, 2)),
        SessionKind::LateDip => books(true, dip_from(values, 2)),
        SessionKind::AmendAmount => amend_amount(values),
        SessionKind::AmendLevel => amend_level(values),
        SessionKind::Strike => strike(values),
        SessionKind::Close => Request::Store(Effect::Closes(name_there(values, 1))),
        SessionKind::Assay => assay(values),
        SessionKind::Design => Request::Design,
        SessionKind::Report => Request::Report(name_there(values, 1)),
        SessionKind::History => Request::History(name_there(values, 1)),
        SessionKind::Advise => Request::Advise,
        SessionKind::Window => Request::Window(name_there(values, 1), name_there(values, 2)),
        SessionKind::Component => Request::Component(name_there(values, 1), name_there(values, 2)),
    }
}

// A declaration is stored.
fn declares(declared: Declared) -> Request
    ensures { result ≡ declares declared }
{
    Request::Store(Effect::Declares(declared))
}

// A fact is stored, on time or late.
fn books(late: bool, fact: Fact) -> Request
    ensures { result ≡ books late fact }
{
    Request::Store(Effect::Books { fact, late })
}

// `boundary,NAME`
fn boundary(values: &Values) -> Request
    requires { FitEach (session_columns kinds.Boundary) values.now }
    ensures { result ≡ request_of kinds.Boundary values.now }
{
    declares(Declared::Boundary {
        name: name_there(values, 1),
    })
}

// `unit,NAME`
fn unit(values: &Values) -> Request
    requires { FitEach (session_columns kinds.Unit) values.now }
    ensures { result ≡ request_of kinds.Unit values.now }
{
    declares(Declared::Unit {
        name: name_there(values, 1),
    })
}

// `tank,NAME,BASEVAR`
fn tank(values: &Values) -> Request
    requires { FitEach (session_columns kinds.Tank) values.now }
    ensures { result ≡ request_of kinds.Tank values.now }
{
    declares(Declared::Tank {
        name: name_there(values, 1),
        base: number_there(values, 2),
        service: None,
    })
}

// `tank,NAME,BASEVAR,SINCE,UNTIL`
fn tank_in_service(values: &Values) -> Request
    requires { FitEach (session_columns kinds.TankInService) values.now }
    ensures { result ≡ request_of kinds.TankInService values.now }
{
    declares(Declared::Tank {
        name: name_there(values, 1),
        base: number_there(values, 2),
        service: Some(service_from(values, 3)),
    })
}

// `SINCE,UNTIL` from a place on
fn service_from(values: &Values, at: usize) -> Service
    requires { at ≤ 6 }
    ensures { result ≡ service_from values.now at }
{
    Service {
        since: day_there(values, at),
        until: day_there(values, at + 1),
    }
}

// `strap,TANK,MM,ML`
fn strap(values: &Values) -> Request
    requires { FitEach (session_columns kinds.Strap) values.now }
    ensures { result ≡ request_of kinds.Strap values.now }
{
    declares(Declared::Strap {
        tank: name_there(values, 1),
        mm: long_there(values, 2),
        ml: long_there(values, 3),
    })
}

// `stream,NAME,FROM,TO,KIND,BASEVAR`, of the kind that its word gives, and perhaps `SINCE,UNTIL` after that
fn stream(kind: Kind, service: Option<Service>, values: &Values) -> Request
    requires name { IsNameThere values.now 1 }
    requires from { IsNameThere values.now 2 }
    requires to { IsNameThere values.now 3 }
    ensures { result ≡ declares (stream_of kind service values.now) }
{
    declares(Declared::Stream {
        name: name_there(values, 1),
        from: name_there(values, 2),
        to: name_there(values, 3),
        kind,
        base: number_there(values, 5),
        service,
    })
}

// `period,NAME,FIRST,LAST`
fn period(values: &Values) -> Request
    requires { FitEach (session_columns kinds.Period) values.now }
    ensures { result ≡ request_of kinds.Period values.now }
{
    Request::Store(Effect::Opens {
        name: name_there(values, 1),
        first: day_there(values, 2),
        last: day_there(values, 3),
    })
}

// `critical,global,DOF,VALUE`
fn critical_global(values: &Values) -> Request
    requires { FitEach (session_columns kinds.CriticalGlobal) values.now }
    ensures { result ≡ request_of kinds.CriticalGlobal values.now }
{
    declares(Declared::CritGlobal {
        dof: dof_there(values, 2),
        value: long_there(values, 3),
    })
}

// `critical,nodal,VALUE`
fn critical_nodal(values: &Values) -> Request
    requires { FitEach (session_columns kinds.CriticalNodal) values.now }
    ensures { result ≡ request_of kinds.CriticalNodal values.now }
{
    declares(Declared::CritNodal {
        value: long_there(values, 2),
    })
}

// `critical,measure,VALUE`
fn critical_measure(values: &Values) -> Request
    requires { FitEach (session_columns kinds.CriticalMeasure) values.now }
    ensures { result ≡ request_of kinds.CriticalMeasure values.now }
{
    declares(Declared::CritMeasure {
        value: long_there(values, 2),
    })
}

// `amend,ID,GRAMS,VARIANCE,REASON`
fn amend_amount(values: &Values) -> Request
    requires { FitEach (session_columns kinds.AmendAmount) values.now }
    ensures { result ≡ request_of kinds.AmendAmount values.now }
{
    let change = Change::Amount {
        grams: long_there(values, 2),
        variance: number_there(values, 3),
    };
    Request::Store(Effect::Edits {
        id: name_there(values, 1),
        edit: Edit::Change(change),
        reason: reason_there(values, 4),
    })
}

// `amend,ID,MM,DENSITY,VARIANCE,REASON`
fn amend_level(values: &Values) -> Request
    requires { FitEach (session_columns kinds.AmendLevel) values.now }
    ensures { result ≡ request_of kinds.AmendLevel values.now }
{
    let change = Change::Level {
        mm: long_there(values, 2),
        density: long_there(values, 3),
        variance: number_there(values, 4),
    };
    Request::Store(Effect::Edits {
        id: name_there(values, 1),
        edit: Edit::Change(change),
        reason: reason_there(values, 5),
    })
}

// `strike,ID,REASON`
fn strike(values: &Values) -> Request
    requires { FitEach (session_columns kinds.Strike) values.now }
    ensures { result ≡ request_of kinds.Strike values.now }
{
    Request::Store(Effect::Edits {
        id: name_there(values, 1),
        edit: Edit::Strike,
        reason: reason_there(values, 2),
    })
}

// `assay,COMPONENT,STREAM,PERIOD,PPM,VARIANCE`
fn assay(values: &Values) -> Request
    requires { FitEach (session_columns kinds.Assay) values.now }
    ensures { result ≡ request_of kinds.Assay values.now }
{
    let grade = Grade {
        ppm: long_there(values, 4),
        variance: long_there(values, 5),
    };
    Request::Store(Effect::Assays(Assay {
        component: name_there(values, 1),
        stream: name_there(values, 2),
        period: name_there(values, 3),
        grade,
    }))
}
