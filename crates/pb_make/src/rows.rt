// The rows of a made session.

ghost use Rattle.std.specs.Prelude.{◌≡◌, ◌<◌, ◌≤◌, ◌≤ℤ◌, ◌*◌, ◌∷◌, [], length, pos, true, IfOk, OnOk};
ghost use Rattle.pb_limits.specs.Limits.{most_made_streams};
ghost use Rattle.pb_rows.specs.Name.{is_name_byte};
ghost use Rattle.pb_rows.specs.Number.{decimal_text};
ghost use Rattle.pb_rows.specs.Written.{AddsLine};
ghost use Rattle.pb_form.specs.Given.{values_as};
ghost use Rattle.pb_form.specs.SessionRows.{session_columns};
ghost use Rattle.pb_form.specs.Texts.{texts_of};
ghost use Rattle.pb_form.specs.Writing.{FitEach};
ghost use Rattle.pb_form.specs.declared.session.SessionKind.TheVariants as kinds;
ghost use Rattle.pb_make.specs.Readings.{made_days};
ghost use Rattle.pb_make.specs.Rows.{january, made_critical_row, made_node_name, made_period, made_period_row, made_report_row, made_stream_row, reading_row, unit_row};

use crate::plant::MadeStream;
use crate::readings::{day_read, is_plain, shown_grams, stream_read, variance_of};
use pb_form::{SessionKind, Value, session_record};
use pb_rows::{Name, whole_bytes};
use std::alloc::{AllocError, Global};

// 2023-12-31, counted from 1970-01-01.
const BEFORE_JANUARY: i32 = 19_722;

// 3.841, the 95 percent point of the chi-square distribution with one degree of freedom, in thousandths.
const CRITICAL: i128 = 3_841;

// The name made of a letter and a number.
fn numbered(alloc: Global, letter: u8, number: u32) -> Result<Name, AllocError>
    requires { is_name_byte letter ≡ true }
    ensures { IfOk result (λ name. name ≡ letter ∷ decimal_text number) }
{
    let mut text = Vec::new(alloc);
    text.push(letter)?;
    text.extend_from_slice(&whole_bytes(alloc, i128::from(number))?)?;
    Ok(Name::read(&text).unwrap())
}

// The name of a node.
fn node_name(alloc: Global, node: u32) -> Result<Name, AllocError>
    ensures { IfOk result (λ name. name ≡ made_node_name node) }
{
    if node == 0 {
        Ok(Name::read(b"env").unwrap())
    } else {
        numbered(alloc, b'u', node)
    }
}

// The name of the period.
fn made_period() -> Name
    ensures { result ≡ made_period }
{
    Name::read(b"m1").unwrap()
}

// A day of January 2024, counted from 1970-01-01.
fn january(day: u8) -> i32
    requires { 1 ≤ day }
    ensures { result ≡ january day }
{
    BEFORE_JANUARY + i32::from(day)
}

// Appends the row of a kind.
fn write_row(text: &mut Vec<u8>, kind: SessionKind, values: &[Value]) -> Result<(), AllocError>
    requires each { length values.now ≡ length (session_columns kind) }
    requires fit { FitEach (session_columns kind) (values_as (session_columns kind) values.now) }
    ensures { OnOk result (AddsLine text.old.items text.new.items
        (texts_of (session_columns kind) (values_as (session_columns kind) values.now))) }
{
    session_record(*text.allocator(), kind, values)?.write_to(text)
}

/// Appends the row of a unit.
pub fn write_unit(text: &mut Vec<u8>, i: u32) -> Result<(), AllocError>
    ensures ok { OnOk result (AddsLine text.old.items text.new.items (unit_row i)) }
{
    let name = node_name(*text.allocator(), i)?;
    write_row(
        text,
        SessionKind::Unit,
        &[Value::Word(0), Value::name(&name)],
    )
}

/// Appends the row of the stream with this number.
pub fn write_stream(text: &mut Vec<u8>, i: u32, stream: &MadeStream) -> Result<(), AllocError>
    ensures ok { OnOk result
        (AddsLine text.old.items text.new.items (made_stream_row i stream.now)) }
{
    let alloc = *text.allocator();
    let name = numbered(alloc, b's', i)?;
    let from = node_name(alloc, stream.from)?;
    let to = node_name(alloc, stream.to)?;
    let (kind, base) = if is_plain(i) {
        (SessionKind::StreamPlain, 0)
    } else {
        (SessionKind::StreamMetered, 1)
    };
    write_row(
        text,
        kind,
        &[
            Value::Word(0),
            Value::name(&name),
            Value::name(&from),
            Value::name(&to),
            Value::Word(0),
            Value::Number(base),
        ],
    )
}

/// Appends the row of the period.
pub fn write_period(text: &mut Vec<u8>) -> Result<(), AllocError>
    ensures ok { OnOk result (AddsLine text.old.items text.new.items made_period_row) }
{
    write_row(
        text,
        SessionKind::Period,
        &[
            Value::Word(0),
            Value::name(&made_period()),
            Value::Day(january(1)),
            Value::Day(january(30)),
        ],
    )
}

/// Appends the row of the critical value of nodal tests.
pub fn write_nodal(text: &mut Vec<u8>) -> Result<(), AllocError>
    ensures ok { OnOk result
        (AddsLine text.old.items text.new.items (made_critical_row kinds.CriticalNodal)) }
{
    write_row(
        text,
        SessionKind::CriticalNodal,
        &[Value::Word(0), Value::Word(0), Value::Number(CRITICAL)],
    )
}

/// Appends the row of the critical value of measurement tests.
pub fn write_measure(text: &mut Vec<u8>) -> Result<(), AllocError>
    ensures ok { OnOk result
        (AddsLine text.old.items text.new.items (made_critical_row kinds.CriticalMeasure)) }
{
    write_row(
        text,
        SessionKind::CriticalMeasure,
        &[Value::Word(0), Value::Word(0), Value::Number(CRITICAL)],
    )
}

/// Appends the row of the reading at a place, of a stream with this true flow, with this draw.
pub fn write_reading(
    text: &mut Vec<u8>,
    place: u32,
    truth: i128,
    draw: u32,
) -> Result<(), AllocError>
    requires place { place < made_days * most_made_streams }
    requires least { pos 1 ≤ℤ truth }
    requires most { truth ≤ℤ pos 100000000000 }
    ensures ok { OnOk result (AddsLine text.old.items text.new.items
        (reading_row place truth draw)) }
{
    let alloc = *text.allocator();
    let id = numbered(alloc, b'r', place + 1)?;
    let stream = numbered(alloc, b's', stream_read(place))?;
    write_row(
        text,
        SessionKind::Reading,
        &[
            Value::Word(0),
            Value::name(&id),
            Value::name(&stream),
            Value::Day(january(day_read(place))),
            Value::Number(shown_grams(truth, draw)),
            Value::Number(variance_of(truth)),
        ],
    )
}

/// Appends the row that asks for the report.
pub fn write_report(text: &mut Vec<u8>) -> Result<(), AllocError>
    ensures ok { OnOk result (AddsLine text.old.items text.new.items made_report_row) }
{
    write_row(
        text,
        SessionKind::Report,
        &[Value::Word(0), Value::name(&made_period())],
    )
}
