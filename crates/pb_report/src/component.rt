// The row before the balance of a component.

ghost use Rattle.std.specs.Prelude.{◌≡◌, ◌∷◌, [], OnOk, OnErr};
ghost use Rattle.pb_report.specs.Form.{AppendsRows};
ghost use Rattle.pb_report.specs.Given.{given_row};
ghost use Rattle.pb_report.specs.Component.{component_row};

use crate::form::{Form, write_row};
use pb_form::{OutputKind, Value};
use pb_rows::Name;
use std::alloc::{AllocError, Global};

/// Appends the row before the balance of a component in a period: `component`, and the names of the component and of the period.
pub fn write_component(
    alloc: Global,
    component: &Name,
    period: &Name,
    form: Form,
    out: &mut Vec<u8>,
) -> Result<(), AllocError>
    ensures ok { OnOk result (AppendsRows form out.old.items out.new.items
        (component_row component.now period.now ∷ [])) }
    ensures err { OnErr result (out.new.items ≡ out.old.items) }
{
    write_row(
        alloc,
        OutputKind::Component,
        &component_values(component, period),
        form,
        out,
    )
}

fn component_values<'a>(component: &'a Name, period: &'a Name) -> [Value<'a>; 3]
    ensures { given_row OutputKind.Component result
        ≡ component_row component.now period.now }
{
    [
        Value::Word(0),
        Value::Text(component.as_str()),
        Value::Text(period.as_str()),
    ]
}
