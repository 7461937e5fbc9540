// The row that sums up the study of a made session.

ghost use Rattle.std.specs.Prelude.{◌≡◌, ◌∷◌, [], OnOk, OnErr};
ghost use Rattle.pb_report.specs.Form.{AppendsRows};
ghost use Rattle.pb_report.specs.Given.{given_row};
ghost use Rattle.pb_report.specs.Summary.{class_count, summary_row};
ghost use Rattle.pb_report.specs.declared.form.Form.TheVariants.{Csv};

use crate::block::sweeps_of;
use crate::form::{Form, write_row};
use crate::values::optional_number;
use pb_choices::{class_place, gap_met, truth_place};
use pb_form::{OutputKind, Value};
use pb_graph::{Class, List};
use pb_study::{Stage, StreamResult};
use std::alloc::{AllocError, Global};

/// Appends, in CSV, the row that sums up the study of a made session: `summary`, the number that it was made from, how many streams
/// were asked for, how many rows the session has, how many streams of its stage are of each class, the degrees of freedom, and how
/// the stage was solved.
pub fn write_summary(
    alloc: Global,
    number: u32,
    streams: u32,
    rows: usize,
    stage: &Stage,
    out: &mut Vec<u8>,
) -> Result<(), AllocError>
    ensures ok { OnOk result (AppendsRows Csv out.old.items out.new.items
        (summary_row number streams rows stage.now ∷ [])) }
    ensures err { OnErr result (out.new.items ≡ out.old.items) }
{
    let values = summary_values(number, streams, rows, stage);
    write_row(alloc, OutputKind::Summary, &values, Form::Csv, out)
}

fn summary_values(number: u32, streams: u32, rows: usize, stage: &Stage) -> [Value<'static>; 13]
    ensures { given_row OutputKind.Summary result ≡ summary_row number streams rows stage.now }
{
    let results = &stage.streams;
    [
        Value::Word(0),
        Value::Number(i128::from(number)),
        Value::Number(i128::from(streams)),
        Value::Number(rows as i128),
        Value::Number(class_count(Class::Observable, results) as i128),
        Value::Number(class_count(Class::Unobservable, results) as i128),
        Value::Number(class_count(Class::Redundant, results) as i128),
        Value::Number(class_count(Class::Nonredundant, results) as i128),
        Value::Number(i128::from(stage.dof)),
        Value::Word(truth_place(gap_met(stage.solved))),
        Value::Number(i128::from(sweeps_of(stage.solved))),
        Value::Number(stage.low),
        optional_number(stage.high),
    ]
}

// How many streams are of a class.
fn class_count(class: Class, results: &List<StreamResult>) -> usize
    ensures { result ≡ class_count class results.now }
{
    let mut count = 0;
    for result_of in results.as_slice() {
        if class_place(result_of.classified.class) == class_place(class) {
            count += 1;
        }
    }
    count
}
