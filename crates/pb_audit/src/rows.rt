// The rows of a judgement.

ghost use Rattle.std.specs.Prelude.{◌≡◌, ◌-◌, ◌∷◌, [], OnOk, OnErr};
ghost use Rattle.pb_form.specs.Given.{value_as};
ghost use Rattle.pb_form.specs.Holds as holds;
ghost use Rattle.pb_blocks.specs.Codes.{row_fault_code};
ghost use Rattle.pb_check.specs.Verdict.{test_code};
ghost use Rattle.pb_report.specs.Form.{AppendsRows};
ghost use Rattle.pb_report.specs.Given.{given_row};
ghost use Rattle.pb_report.specs.declared.form.Form.TheVariants.{Csv};
ghost use Rattle.pb_audit.specs.Judgement.{failed, finding_row, passed, place_name, unreadable};
ghost use Rattle.pb_audit.specs.Judging.{IsPlaceOf};

use pb_blocks::RowFault;
use pb_check::{Place, Test};
use pb_form::{OutputKind, Value};
use pb_readback::Block;
use pb_report::{Form, write_row};
use pb_rows::Names;
use std::alloc::{AllocError, Global};

// Appends the row of a block that passes.
pub(crate) fn write_yes(alloc: Global, block: &Block, out: &mut Vec<u8>) -> Result<(), AllocError>
    ensures ok { OnOk result
        (AppendsRows Csv out.old.items out.new.items (finding_row (passed block.now) ∷ [])) }
    ensures err { OnErr result (out.new.items ≡ out.old.items) }
{
    write_row(alloc, OutputKind::Yes, &yes_values(block), Form::Csv, out)
}

// Appends the row of a block that fails a test.
pub(crate) fn write_no(
    alloc: Global,
    block: &Block,
    test: Test,
    place: Place,
    stated: i128,
    found: i128,
    out: &mut Vec<u8>,
) -> Result<(), AllocError>
    requires { IsPlaceOf block.now.names place }
    ensures ok { OnOk result (AppendsRows Csv out.old.items out.new.items
        (finding_row (failed block.now test place stated found) ∷ [])) }
    ensures err { OnErr result (out.new.items ≡ out.old.items) }
{
    let values = no_values(block, test, place, stated, found);
    write_row(alloc, OutputKind::No, &values, Form::Csv, out)
}

// Appends the row of a record that can't be read.
pub(crate) fn write_unreadable(
    alloc: Global,
    at: u32,
    fault: RowFault,
    out: &mut Vec<u8>,
) -> Result<(), AllocError>
    ensures ok { OnOk result (AppendsRows Csv out.old.items out.new.items
        (finding_row (unreadable at fault) ∷ [])) }
    ensures err { OnErr result (out.new.items ≡ out.old.items) }
{
    let values = unreadable_values(at, fault);
    write_row(alloc, OutputKind::Unreadable, &values, Form::Csv, out)
}

fn yes_values<'a>(block: &'a Block) -> [Value<'a>; 3]
    ensures { given_row OutputKind.Yes result ≡ finding_row (passed block.now) }
{
    [
        Value::Word(0),
        Value::Text(block.period.as_str()),
        Value::Number(i128::from(block.round)),
    ]
}

fn no_values<'a>(
    block: &'a Block,
    test: Test,
    place: Place,
    stated: i128,
    found: i128,
) -> [Value<'a>; 8]
    requires { IsPlaceOf block.now.names place }
    ensures { given_row OutputKind.No result
        ≡ finding_row (failed block.now test place stated found) }
{
    [
        Value::Word(0),
        Value::Text(block.period.as_str()),
        Value::Number(i128::from(block.round)),
        Value::Number(i128::from(test.code())),
        Value::Word(test_place(test)),
        place_name(&block.names, place),
        Value::Number(stated),
        Value::Number(found),
    ]
}

fn unreadable_values(at: u32, fault: RowFault) -> [Value<'static>; 4]
    ensures { given_row OutputKind.Unreadable result ≡ finding_row (unreadable at fault) }
{
    [
        Value::Word(0),
        Value::Number(i128::from(at)),
        Value::Number(i128::from(fault.code())),
        Value::Word(fault_place(fault)),
    ]
}

// The name of the node or the stream at a place; missing for the whole stage.
fn place_name<'a>(names: &'a Names, place: Place) -> Value<'a>
    requires { IsPlaceOf names.now place }
    ensures { value_as holds.Name result ≡ place_name names.now place }
{
    match place {
        Place::Node(node) => Value::Text(names.nodes.at(node as usize).as_str()),
        Place::Stream(stream) => Value::Text(names.streams.at(stream as usize).as_str()),
        Place::Whole => Value::Missing,
    }
}

// The place of a test's word among the words of tests.
fn test_place(test: Test) -> usize
    ensures { result ≡ test_code test - 1 }
{
    test as usize
}

// The place of a fault's word among the words of faults.
fn fault_place(fault: RowFault) -> usize
    ensures { result ≡ row_fault_code fault - 1 }
{
    fault as usize
}
