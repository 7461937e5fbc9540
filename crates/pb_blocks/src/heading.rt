// The row that opens a block.

ghost use Rattle.std.specs.Prelude.{◌≡◌, [], false, IfOk};
ghost use Rattle.pb_form.specs.OutputRows.{output_columns};
ghost use Rattle.pb_form.specs.Writing.{FitEach};
ghost use Rattle.pb_form.specs.declared.output.OutputKind.TheVariants.{Report};
ghost use Rattle.pb_blocks.specs.Beside.{are_miscounted, opening_fault};
ghost use Rattle.pb_blocks.specs.Held.{heading_in};
ghost use Rattle.pb_blocks.specs.Counts.{AreCounts, IsHeading, told};
ghost use Rattle.pb_blocks.specs.Values.{said_heading};
ghost use Rattle.pb_form.specs.Values.{number_at};

use crate::fault::RowFault;
use crate::kinds::kind_among;
use crate::rows::Heading;
use crate::texts::name_field;
use crate::values::{natural, number};
use pb_form::{Fields, OutputKind, Values, output_schema, read};
use pb_limits::{MOST_NODES, MOST_STREAMS};
use pb_rows::{Name, Row};

/// What a row that opens a block says, or its first fault.
pub fn heading_in(row: &Row) -> Result<Heading, RowFault>
    ensures fault { told result ≡ opening_fault row.now }
    ensures value { IfOk result (λ heading. heading ≡ heading_in row.now) }
    ensures counts { IfOk result IsHeading }
{
    let fields = Fields::all(row);
    kind_among(&[OutputKind::Report], &fields)?;
    let values = read(output_schema(OutputKind::Report), &fields)?;
    if is_miscounted(&values) {
        return Err(RowFault::Count);
    }
    match Name::read(name_field(&fields)) {
        Some(period) => Ok(said_heading(period, &values)),
        None => Err(RowFault::Name),
    }
}

// The heading of a period with its counts.
fn said_heading(period: Name, values: &Values) -> Heading
    requires fit { FitEach (output_columns Report) values.now }
    requires counts { AreCounts (number_at values.now 3) (number_at values.now 4) }
    ensures { result ≡ record (said_heading [] values.now) { period = period } }
{
    Heading {
        period,
        round: natural(values, 2),
        nodes: natural(values, 3),
        streams: natural(values, 4),
        gap: natural(values, 5),
        sweeps: natural(values, 6),
    }
}

// Whether a heading says too few or too many nodes or streams.
fn is_miscounted(values: &Values) -> bool
    ensures value { result
        ≡ are_miscounted (number_at values.now 3) (number_at values.now 4) }
    ensures counts { result ≡ false
        → AreCounts (number_at values.now 3) (number_at values.now 4) }
{
    let nodes = number(values, 3);
    let streams = number(values, 4);
    nodes < 1 || i128::from(MOST_NODES) < nodes || streams < 0 || (MOST_STREAMS as i128) < streams
}
