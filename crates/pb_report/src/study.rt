// The rows of a study.

ghost use Rattle.std.specs.Prelude.{◌≡◌, ◌<◌, ◌∷◌, [], length, OnOk, OnErr};
ghost use Rattle.std.specs.Option.{option_map, option_to_list};
ghost use Rattle.pb_report.specs.Form.{AppendsRows};
ghost use Rattle.pb_report.specs.Given.{given_row};
ghost use Rattle.pb_report.specs.Names.{IsNamedStudy};
ghost use Rattle.pb_report.specs.Output.{AddsRows};
ghost use Rattle.pb_report.specs.Study.{stage_rows, stop_row, study_rows, taken_row};

use crate::block::write_block;
use crate::form::Form;
use crate::output::Output;
use pb_choices::stop_place;
use pb_form::{OutputKind, Value};
use pb_rows::{Name, Names};
use pb_study::{Options, Stop, Study, Taken};
use std::alloc::{AllocError, Global};

/// Appends the report of a period: for each stage of its study a block (`report`, the nodes with their prices in units of 2^-56,
/// the streams with reconciled flows and bounds in grams, `solved`, the rows of the tests, and `end`), before each stage except the
/// first the row of the suspect that was `taken`, and at the end `stop` if suspects were to be taken.
pub fn write_study(
    alloc: Global,
    names: &Names,
    period: &Name,
    options: &Options,
    study: &Study,
    form: Form,
    out: &mut Vec<u8>,
) -> Result<(), AllocError>
    requires named { IsNamedStudy names.now study.now }
    ensures ok { OnOk result (AppendsRows form out.old.items out.new.items
        (study_rows names.now period.now options.now study.now)) }
    ensures err { OnErr result (out.new.items ≡ out.old.items) }
{
    let mut output = Output::new(alloc, form);
    write_stages(names, period, options, study, &mut output)?;
    write_stop(period, study.taken.len(), study.stop, &mut output)?;
    output.append_to(out)
}

// Writes the blocks and the suspects between them.
fn write_stages(
    names: &Names,
    period: &Name,
    options: &Options,
    study: &Study,
    output: &mut Output,
) -> Result<(), AllocError>
    requires { IsNamedStudy names.now study.now }
    ensures { OnOk result (AddsRows output.old output.new
        (stage_rows names.now period.now options.now study.now.taken study.now.stages)) }
{
    write_block(names, period, options, 0, study.stages.at(0), output)?;
    for (i, suspect) in study.taken.as_slice().iter().enumerate() {
        let values = taken_values(names, period, i + 1, suspect);
        output.push(OutputKind::Taken, &values)?;
        write_block(
            names,
            period,
            options,
            i + 1,
            study.stages.at(i + 1),
            output,
        )?;
    }
    Ok(())
}

// The values of the row of a suspect that was taken before a round.
fn taken_values<'a>(
    names: &'a Names,
    period: &'a Name,
    round: usize,
    suspect: &Taken,
) -> [Value<'a>; 5]
    requires { suspect.now.stream < length names.now.streams }
    ensures { given_row OutputKind.Taken result
        ≡ taken_row names.now period.now round suspect.now }
{
    [
        Value::Word(0),
        Value::Text(period.as_str()),
        Value::Number(round as i128),
        Value::Text(names.streams.at(suspect.stream as usize).as_str()),
        Value::Number(suspect.low),
    ]
}

// Writes why the elimination stopped, if it was asked for.
fn write_stop(
    period: &Name,
    rounds: usize,
    stop: Option<Stop>,
    output: &mut Output,
) -> Result<(), AllocError>
    ensures { OnOk result (AddsRows output.old output.new
        (option_to_list (option_map (stop_row period.now rounds) stop))) }
{
    match stop {
        None => Ok(()),
        Some(reason) => output.push(OutputKind::Stop, &stop_values(period, rounds, reason)),
    }
}

fn stop_values<'a>(period: &'a Name, rounds: usize, reason: Stop) -> [Value<'a>; 4]
    ensures { given_row OutputKind.Stop result ≡ stop_row period.now rounds reason }
{
    [
        Value::Word(0),
        Value::Text(period.as_str()),
        Value::Word(stop_place(reason)),
        Value::Number(rounds as i128),
    ]
}
