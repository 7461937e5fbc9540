// The faults of a row of a block besides the faults of its form.

ghost use Rattle.std.specs.Prelude.{◌≡◌, ◌&&◌, None, Some, if◌then◌else◌};
ghost use Rattle.pb_form.specs.declared.output.OutputKind.TheVariants.{Node};
ghost use Rattle.pb_rows.specs.Name.{same_name};
ghost use Rattle.pb_blocks.specs.Beside.{has_bad_list, is_round};
ghost use Rattle.pb_blocks.specs.Texts.{name_field};
ghost use Rattle.pb_blocks.specs.declared.fault.RowFault.TheVariants.{Unknown};
ghost use Rattle.pb_readback.specs.Faults.{fault_beside, stream_fault};
ghost use Rattle.pb_readback.specs.Reading.{HaveParts};

use crate::draft::Draft;
use pb_blocks::{
    RowFault, has_bad_list, has_bad_list_beside, has_unknown_node, is_half_told, is_round, is_word,
    leads_to_itself, name_field,
};
use pb_form::{Fields, OutputKind};

impl Draft {
    // The lowest fault of a row of a kind besides the faults of its form.
    pub(crate) fn fault_beside(&self, kind: OutputKind, fields: &Fields) -> Option<RowFault>
        requires { HaveParts self.now }
        ensures { result ≡ fault_beside kind self.now fields.now }
    {
        match kind {
            OutputKind::Node => self.node_fault(fields),
            OutputKind::Stream | OutputKind::StreamBefore => self.stream_fault(kind, fields),
            OutputKind::Nodal => unknown_unless(self.nodes.has(name_field(fields))),
            OutputKind::Measure => unknown_unless(self.streams.has(name_field(fields))),
            OutputKind::End => unknown_unless(self.is_own_end(fields)),
            _ => None,
        }
    }

    // The lowest fault of a node: its name came before, or the first node isn't the environment.
    fn node_fault(&self, fields: &Fields) -> Option<RowFault>
        ensures { result ≡ fault_beside Node self.now fields.now }
    {
        if self.nodes.has(name_field(fields)) {
            Some(RowFault::Duplicate)
        } else if self.nodes.len() == 0 && !is_word(name_field(fields), b"env") {
            Some(RowFault::Env)
        } else {
            None
        }
    }

    // The lowest fault of a stream.
    fn stream_fault(&self, kind: OutputKind, fields: &Fields) -> Option<RowFault>
        requires { HaveParts self.now }
        ensures { result ≡ stream_fault kind self.now fields.now }
    {
        if is_half_told(kind, fields) {
            Some(RowFault::Number)
        } else if has_unknown_node(&self.nodes, kind, fields) {
            Some(RowFault::Unknown)
        } else if self.streams.has(name_field(fields)) {
            Some(RowFault::Duplicate)
        } else if self.has_bad_list(kind, fields) {
            Some(RowFault::Shape)
        } else if leads_to_itself(fields) {
            Some(RowFault::Count)
        } else {
            None
        }
    }

    // Whether the lists of a stream don't have their form. Streams on one cycle often follow one another.
    fn has_bad_list(&self, kind: OutputKind, fields: &Fields) -> bool
        requires { HaveParts self.now }
        ensures { result ≡ has_bad_list self.now.nodes kind fields.now }
    {
        match self.rows.as_slice().last() {
            Some(row) => has_bad_list_beside(&self.nodes, kind, fields, row.parts.as_slice()),
            None => has_bad_list(&self.nodes, kind, fields),
        }
    }

    // Whether an end has the block's period and round.
    fn is_own_end(&self, fields: &Fields) -> bool
        ensures { result ≡ (same_name (name_field fields.now) self.now.heading.period
            && is_round fields.now self.now.heading.round) }
    {
        is_word(name_field(fields), self.heading.period.bytes())
            && is_round(fields, self.heading.round)
    }
}

// `Unknown`, unless what a test names, or an end ends, is known.
fn unknown_unless(known: bool) -> Option<RowFault>
    ensures { result ≡ if known then None else Some Unknown }
{
    if known { None } else { Some(RowFault::Unknown) }
}
