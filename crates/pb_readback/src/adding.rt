// What one more row adds to a draft.

ghost use Rattle.std.specs.Prelude.{◌≡◌, ◌<◌, [], true, false, length, None, Ok, IfOk, OnOk};
ghost use Rattle.std.specs.Option.{option_map};
ghost use Rattle.pb_limits.specs.Limits.{most_streams};
ghost use Rattle.pb_rows.specs.Name.{is_name};
ghost use Rattle.pb_graph.specs.ProcessGraph.{IsStream};
ghost use Rattle.pb_form.specs.OutputRows.{output_columns, output_schema};
ghost use Rattle.pb_form.specs.Reading.{row_read};
ghost use Rattle.pb_form.specs.Writing.{FitEach};
ghost use Rattle.pb_form.specs.declared.output.OutputKind.TheVariants.{Node};
ghost use Rattle.pb_blocks.specs.Counts.{IsHeading, IsStreamKind};
ghost use Rattle.pb_blocks.specs.Lists.{is_among};
ghost use Rattle.pb_blocks.specs.Texts.{name_field};
ghost use Rattle.pb_blocks.specs.Values.{said_arc, values_in};
ghost use Rattle.pb_readback.specs.Drafts.{draft_of, draft_with_row, with_measure, with_nodal, with_stream};
ghost use Rattle.pb_readback.specs.Reading.{no_solution, with_node, tests_begun, told_with, HaveParts, IsUnderWay, MayCome};
ghost use Rattle.pb_readback.specs.Faults.{fault_behind, fault_beside, row_fault_of};

use crate::draft::Draft;
use pb_blocks::{
    Heading, Known, RowFault, Solution, kind_among, lowest, name_field, number, said_arc,
    said_global, said_measure, said_nodal, said_solution, said_stream,
};
use pb_form::{Fields, OutputKind, Values, output_schema, read};
use pb_graph::{Graph, List};
use pb_rows::Row;
use pb_study::{MeasureTest, NodalTest, Solved, Tests};
use std::alloc::{AllocError, Global};

impl Draft {
    // What a heading says: no nodes and no streams yet.
    pub(crate) fn new(alloc: Global, heading: Heading) -> Draft
        requires { IsHeading heading }
        ensures { result ≡ draft_of heading }
    {
        Draft {
            last: OutputKind::Report,
            heading,
            nodes: Known::new(alloc),
            prices: List::new(alloc),
            streams: Known::new(alloc),
            graph: Graph::new(alloc, heading.nodes),
            rows: List::new(alloc),
            solution: no_solution(),
            tests: None,
        }
    }

    // Reads one more row: returns its lowest fault, or none, and then the draft has what the row says.
    pub(crate) fn read(&mut self, alloc: Global, row: &Row) -> Result<Option<RowFault>, AllocError>
        requires way { IsUnderWay self.old }
        requires parts { HaveParts self.old }
        ensures fault { IfOk result (λ fault. fault ≡ fault_behind self.old row.now) }
        ensures told { IfOk result
            (λ fault. fault ≡ None → self.new ≡ draft_with_row self.old row.now) }
    {
        let fields = Fields::all(row);
        match kind_among(self.kinds_next(), &fields) {
            Err(fault) => Ok(Some(fault)),
            Ok(kind) => self.read_as(alloc, kind, &fields),
        }
    }

    // Reads a row of a kind.
    fn read_as(
        &mut self,
        alloc: Global,
        kind: OutputKind,
        fields: &Fields,
    ) -> Result<Option<RowFault>, AllocError>
        requires way { IsUnderWay self.old }
        requires may { MayCome self.old kind }
        requires parts { HaveParts self.old }
        ensures fault { IfOk result (λ fault. fault ≡ row_fault_of kind self.old fields.now) }
        ensures told { IfOk result
            (λ fault. fault ≡ None → self.new ≡ told_with kind self.old fields.now) }
    {
        let beside = self.fault_beside(kind, fields);
        match read(output_schema(kind), fields) {
            Err(fault) => Ok(lowest(Some(RowFault::from(fault)), beside)),
            Ok(values) => match beside {
                Some(fault) => Ok(Some(fault)),
                None => {
                    self.add(alloc, kind, fields, &values)?;
                    Ok(None)
                }
            },
        }
    }

    // Adds what a row of a kind without a fault says.
    fn add(
        &mut self,
        alloc: Global,
        kind: OutputKind,
        fields: &Fields,
        values: &Values,
    ) -> Result<(), AllocError>
        requires way { IsUnderWay self.old }
        requires may { MayCome self.old kind }
        requires read { row_read (output_schema kind) fields.now ≡ Ok values.now }
        requires fit { FitEach (output_columns kind) values.now }
        requires fine { fault_beside kind self.old fields.now ≡ None }
        ensures { OnOk result (self.new ≡ told_with kind self.old fields.now) }
    {
        match kind {
            OutputKind::Node => self.add_node(fields, values)?,
            OutputKind::Stream | OutputKind::StreamBefore => {
                self.add_stream(alloc, kind, fields, values)?;
            }
            OutputKind::Solved => self.solution = said_solution(values),
            OutputKind::Global => self.tests = Some(no_tests(alloc, values)),
            OutputKind::Nodal => {
                let test = said_nodal(&self.nodes, fields, values);
                push_nodal(&mut self.tests, test)?;
            }
            OutputKind::Measure => {
                let test = said_measure(&self.streams, fields, values);
                push_measure(&mut self.tests, test)?;
            }
            _ => {}
        }
        self.last = kind;
        Ok(())
    }

    // Adds a node with its price.
    fn add_node(&mut self, fields: &Fields, values: &Values) -> Result<(), AllocError>
        requires form { is_name (name_field fields.now) ≡ true }
        requires room { length self.old.nodes < most_streams }
        requires new { is_among self.old.nodes (name_field fields.now) ≡ false }
        requires values { values.now ≡ values_in Node fields.now }
        ensures { OnOk result (self.new ≡ with_node fields.now self.old) }
    {
        self.nodes.add(name_field(fields))?;
        self.prices.push(number(values, 2))
    }

    // Adds a stream with its ends, and what else its row says.
    fn add_stream(
        &mut self,
        alloc: Global,
        kind: OutputKind,
        fields: &Fields,
        values: &Values,
    ) -> Result<(), AllocError>
        requires stream { IsStreamKind kind }
        requires fit { FitEach (output_columns kind) values.now }
        requires form { is_name (name_field fields.now) ≡ true }
        requires room { length self.old.streams < most_streams }
        requires new { is_among self.old.streams (name_field fields.now) ≡ false }
        requires few { length self.old.graph.streams < most_streams }
        requires joins { IsStream self.old.graph.nodes
            (said_arc self.old.nodes fields.now values.now) }
        requires values { values.now ≡ values_in kind fields.now }
        ensures { OnOk result (self.new ≡ with_stream kind fields.now self.old) }
    {
        let row = said_stream(alloc, &self.nodes, kind, fields, values)?;
        self.graph
            .push(said_arc(&self.nodes, kind, fields, values))?;
        self.streams.add(name_field(fields))?;
        self.rows.push(row)
    }
}

// The solution before its row has come.
fn no_solution() -> Solution
    ensures { result ≡ no_solution }
{
    Solution {
        solved: Solved::Unconverged(0),
        g: 0,
        h: 0,
        dof: 0,
        low: 0,
        high: None,
    }
}

// The global test, and no other test yet.
fn no_tests(alloc: Global, values: &Values) -> Tests
    requires { FitEach (output_columns OutputKind.Global) values.now }
    ensures { result ≡ tests_begun values.now }
{
    Tests {
        global: said_global(values),
        nodal: List::new(alloc),
        measure: List::new(alloc),
    }
}

// Adds a test of a balance to the tests, if there are any.
fn push_nodal(tests: &mut Option<Tests>, test: NodalTest) -> Result<(), AllocError>
    ensures { OnOk result (tests.new ≡ option_map (with_nodal test) tests.old) }
{
    match tests {
        Some(tests) => tests.nodal.push(test),
        None => Ok(()),
    }
}

// Adds a test of a measurement to the tests, if there are any.
fn push_measure(tests: &mut Option<Tests>, test: MeasureTest) -> Result<(), AllocError>
    ensures { OnOk result (tests.new ≡ option_map (with_measure test) tests.old) }
{
    match tests {
        Some(tests) => tests.measure.push(test),
        None => Ok(()),
    }
}
