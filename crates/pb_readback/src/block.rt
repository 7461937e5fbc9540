// A block that was read, and how it is made from what its rows have said.

ghost use Rattle.std.specs.Prelude.{◌≡◌, ◌≢◌, ◌==◌, ◌<◌, true, false, length, map, position, IfOk, IfSome};
ghost use Rattle.std.specs.List.{list_any};
ghost use Rattle.pb_graph.specs.declared.records.Member.{Member};
ghost use Rattle.pb_graph.specs.declared.records.Step.{Step};
ghost use Rattle.pb_form.specs.declared.output.OutputKind.TheVariants.{End};
ghost use Rattle.pb_blocks.specs.Results.{result_of};
ghost use Rattle.pb_readback.specs.Blocks.{block_of};
ghost use Rattle.pb_readback.specs.Reading.{has_stream, is_on_stream, is_stream_kind};

use crate::draft::Draft;
use pb_blocks::{Known, StreamRow, result_beside, result_of};
use pb_form::OutputKind;
use pb_graph::{List, Member, Step, Witness};
use pb_rows::{Name, Names};
use pb_study::{Stage, StreamResult};
use std::alloc::{AllocError, Global};

/// A stage of a report, with the names of its period, its nodes and its streams, its round, and the gap in thousandths and the
/// greatest number of sweeps that it was reported with.
#[derive(Drop)]
pub struct Block {
    pub period: Name,
    pub round: u32,
    pub gap: u32,
    pub sweeps: u32,
    pub names: Names,
    pub stage: Stage,
}

impl Draft {
    // Whether the last row ends the block.
    pub(crate) fn is_ended(&self) -> bool
        ensures ended { result ≡ true → self.now.last ≡ End }
        ensures going { result ≡ false → self.now.last ≢ End }
    {
        matches!(self.last, OutputKind::End)
    }

    // Whether the last row is the row of the last stream.
    pub(crate) fn is_at_last_stream(&self) -> bool
        ensures all { result ≡ true → length self.now.streams ≡ self.now.heading.streams }
        ensures other { result ≡ false → is_stream_kind self.now.last ≡ true
            → length self.now.streams ≢ self.now.heading.streams }
    {
        matches!(self.last, OutputKind::Stream | OutputKind::StreamBefore)
            && self.streams.len() == self.heading.streams
    }

    // The results of the streams, with the streams of their certificates looked up.
    pub(crate) fn results(&self, alloc: Global) -> Result<List<StreamResult>, AllocError>
        ensures { IfOk result
            (λ results. results ≡ map (result_of self.now.streams) self.now.rows) }
    {
        results_of(alloc, &self.streams, self.rows.as_slice())
    }

    // The block that the rows give, whose results are these.
    pub(crate) fn block(
        self,
        results: List<StreamResult>,
        alloc: Global,
    ) -> Result<Block, AllocError>
        requires { results ≡ map (result_of self.streams) self.rows }
        ensures { IfOk result (λ block. block ≡ block_of self) }
    {
        let Draft {
            last: _,
            heading,
            nodes,
            prices,
            streams,
            graph,
            rows: _,
            solution,
            tests,
        } = self;
        let names = Names {
            nodes: nodes.list(alloc)?,
            streams: streams.list(alloc)?,
        };
        Ok(Block {
            period: heading.period,
            round: heading.round,
            gap: heading.gap,
            sweeps: heading.sweeps,
            names,
            stage: Stage {
                graph,
                streams: results,
                prices,
                solved: solution.solved,
                g: solution.g,
                h: solution.h,
                dof: solution.dof,
                low: solution.low,
                high: solution.high,
                tests,
            },
        })
    }
}

// The first of these results whose certificate has the stream of this number.
#[tactic(auto, using(pb_blocks::proofs::NameLemmas::found_here, pb_blocks::proofs::NameLemmas::not_here, pb_blocks::proofs::NameLemmas::found_nowhere))]
pub(crate) fn first_on_stream(results: &[StreamResult], stream: u32) -> Option<usize>
    ensures value { result ≡ position (is_on_stream stream) results.now }
    ensures within { IfSome result (λ place. place < length results.now) }
{
    for (place, found) in results.iter().enumerate() {
        if is_on_stream(found, stream) {
            return Some(place);
        }
    }
    None
}

fn is_on_stream(found: &StreamResult, stream: u32) -> bool
    ensures { result ≡ is_on_stream stream found.now }
{
    has_stream(&found.classified.witness, stream)
}

fn has_stream(witness: &Witness, stream: u32) -> bool
    ensures { result ≡ has_stream stream witness.now }
{
    match witness {
        Witness::Cut { side: _, members } => has_member(members.as_slice(), stream),
        Witness::Cycle { steps } => has_step(steps.as_slice(), stream),
    }
}

fn has_member(members: &[Member], stream: u32) -> bool
    ensures { result ≡ list_any (λ (m : Member). m.stream == stream) members.now }
{
    members.iter().any(|member| member.stream == stream)
}

fn has_step(steps: &[Step], stream: u32) -> bool
    ensures { result ≡ list_any (λ (t : Step). t.stream == stream) steps.now }
{
    steps.iter().any(|step| step.stream == stream)
}

// The results of streams, with the streams of their certificates looked up.
fn results_of(
    alloc: Global,
    streams: &Known,
    rows: &[StreamRow],
) -> Result<List<StreamResult>, AllocError>
    ensures { IfOk result (λ results. results ≡ map (result_of streams.now) rows.now) }
{
    let mut results = List::new(alloc);
    for (place, row) in rows.iter().enumerate() {
        let made = result_after(alloc, streams, &rows[..place], results.as_slice(), row)?;
        results.push(made)?;
    }
    Ok(results)
}

// The result of a row after these rows, whose results are known. Streams on one cycle often follow one another.
fn result_after(
    alloc: Global,
    streams: &Known,
    rows: &[StreamRow],
    results: &[StreamResult],
    row: &StreamRow,
) -> Result<StreamResult, AllocError>
    requires { results.now ≡ map (result_of streams.now) rows.now }
    ensures { IfOk result (λ made. made ≡ result_of streams.now row.now) }
{
    match (rows.last(), results.last()) {
        (Some(other), Some(made)) => result_beside(alloc, streams, row, other, made),
        _ => result_of(alloc, streams, row),
    }
}
