// The rows before the report of a window.

ghost use Rattle.std.specs.Prelude.{◌≡◌, ◌∷◌, [], map, OnOk, OnErr};
ghost use Rattle.pb_report.specs.Form.{AppendsRows};
ghost use Rattle.pb_report.specs.Given.{given_row};
ghost use Rattle.pb_report.specs.Output.{AddsRows};
ghost use Rattle.pb_report.specs.Window.{place_row, window_row, window_rows};

use crate::form::Form;
use crate::output::Output;
use pb_form::{OutputKind, Value};
use pb_plan::WindowPlace;
use pb_rows::Name;
use std::alloc::{AllocError, Global};

/// Appends the rows before the report of a window: `window` with the names of its first and its last period and the number of
/// its periods, and one `place` row for each of its names, with the names of the period and of the node or stream of the plant.
pub fn write_window(
    alloc: Global,
    first: &Name,
    last: &Name,
    periods: u32,
    places: &[WindowPlace],
    form: Form,
    out: &mut Vec<u8>,
) -> Result<(), AllocError>
    ensures ok { OnOk result (AppendsRows form out.old.items out.new.items
        (window_rows first.now last.now periods places.now)) }
    ensures err { OnErr result (out.new.items ≡ out.old.items) }
{
    let mut output = Output::new(alloc, form);
    output.push(OutputKind::Window, &window_values(first, last, periods))?;
    write_places(places, &mut output)?;
    output.append_to(out)
}

fn window_values<'a>(first: &'a Name, last: &'a Name, periods: u32) -> [Value<'a>; 4]
    ensures { given_row OutputKind.Window result ≡ window_row first.now last.now periods }
{
    [
        Value::Word(0),
        Value::Text(first.as_str()),
        Value::Text(last.as_str()),
        Value::Number(i128::from(periods)),
    ]
}

// Writes what each name stands for.
fn write_places(places: &[WindowPlace], output: &mut Output) -> Result<(), AllocError>
    ensures { OnOk result (AddsRows output.old output.new (map place_row places.now)) }
{
    for place in places {
        output.push(OutputKind::Place, &place_values(place))?;
    }
    Ok(())
}

fn place_values(place: &WindowPlace) -> [Value<'_>; 4]
    ensures { given_row OutputKind.Place result ≡ place_row place.now }
{
    [
        Value::Word(0),
        Value::Text(place.code.as_str()),
        Value::Text(place.period.as_str()),
        Value::Text(place.name.as_str()),
    ]
}
