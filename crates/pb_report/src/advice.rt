// The rows of advice.

ghost use Rattle.std.specs.Prelude.{◌≡◌, ◌<◌, ◌∷◌, [], length, map, string_bytes, All, OnOk, OnErr};
ghost use Rattle.pb_report.specs.Advice.{IsNamedAdvice, advice_row, advice_rows, meter_row};
ghost use Rattle.pb_report.specs.Certificate.{spaced, step_text};
ghost use Rattle.pb_report.specs.Form.{AppendsRows};
ghost use Rattle.pb_report.specs.Given.{IsNamedMeter, given_row};
ghost use Rattle.pb_report.specs.Output.{AddsRows};

use crate::form::Form;
use crate::output::Output;
use crate::parts::steps_text;
use pb_advise::{Advice, Meter};
use pb_form::{OutputKind, Value};
use pb_rows::Names;
use std::alloc::{AllocError, Global};

/// Appends the rows of advice: `advise` with the number of streams to meter and the total cost of their meters, and one `meter`
/// row for each meter, with its stream, its cost and the cycle that shows why the stream needs one.
pub fn write_advise(
    alloc: Global,
    names: &Names,
    advice: &Advice,
    form: Form,
    out: &mut Vec<u8>,
) -> Result<(), AllocError>
    requires { IsNamedAdvice names.now advice.now }
    ensures ok { OnOk result (AppendsRows form out.old.items out.new.items
        (advice_rows names.now advice.now)) }
    ensures err { OnErr result (out.new.items ≡ out.old.items) }
{
    let mut output = Output::new(alloc, form);
    output.push(OutputKind::Advise, &advice_values(advice))?;
    write_meters(names, advice.meter.as_slice(), &mut output)?;
    output.append_to(out)
}

fn advice_values(advice: &Advice) -> [Value<'static>; 3]
    ensures { given_row OutputKind.Advise result ≡ advice_row advice.now }
{
    [
        Value::Word(0),
        Value::Number(advice.meter.len() as i128),
        Value::Number(advice.total),
    ]
}

// Writes the rows of the meters.
fn write_meters(names: &Names, meters: &[Meter], output: &mut Output) -> Result<(), AllocError>
    requires { All (IsNamedMeter names.now) meters.now }
    ensures { OnOk result (AddsRows output.old output.new (map (meter_row names.now) meters.now)) }
{
    for meter in meters {
        write_meter(names, meter, output)?;
    }
    Ok(())
}

// Writes the row of one meter.
fn write_meter(names: &Names, meter: &Meter, output: &mut Output) -> Result<(), AllocError>
    requires { IsNamedMeter names.now meter.now }
    ensures { OnOk result (AddsRows output.old output.new (meter_row names.now meter.now ∷ [])) }
{
    let parts = steps_text(output.allocator(), &names.streams, meter.steps.as_slice())?;
    output.push(OutputKind::Meter, &meter_values(names, meter, &parts))
}

fn meter_values<'a>(names: &'a Names, meter: &Meter, parts: &'a String) -> [Value<'a>; 4]
    requires stream { meter.now.stream < length names.now.streams }
    requires shows { string_bytes parts.now
        ≡ spaced (step_text names.now.streams) meter.now.steps }
    ensures { given_row OutputKind.Meter result ≡ meter_row names.now meter.now }
{
    [
        Value::Word(0),
        Value::Text(names.streams.at(meter.stream as usize).as_str()),
        Value::Number(i128::from(meter.cost)),
        Value::Text(parts.as_str()),
    ]
}
