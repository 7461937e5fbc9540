// A graph of the environment and one unit, with as many streams as there may be.

ghost use Rattle.std.specs.Prelude.{◌≤◌, ◌<◌, length, IfOk};

use cases::fields_of;
use pb_check::check;
use pb_elim::study;
use pb_gap::Solver;
use pb_graph::{Graph, List, Meas, Stream};
use pb_limits::MOST_STREAMS;
use pb_rows::{read_whole, whole_bytes};
use pb_study::{Critical, Options, Solved};
use std::alloc::{AllocError, Global};

/// The gap that is asked for, in thousandths of a standard deviation, and the sweeps that are allowed.
const GAP: u32 = 10;

const SWEEPS: u32 = 20;

// The streams of a line in turn, until there are as many as a graph may have. A stream is `in` or `out`, its value and its variance, with
// commas between; `None` if the line has another form or is beyond the limits.
fn graph_of(alloc: Global, line: &[u8]) -> Result<Option<Graph>, AllocError> {
    let mut turn = Vec::new(alloc);
    if append_streams(alloc, line, &mut turn)? {
        full_graph(alloc, &turn)
    } else {
        Ok(None)
    }
}

// Appends the streams of a line. False if it has another form.
fn append_streams(alloc: Global, line: &[u8], turn: &mut Vec<Stream>) -> Result<bool, AllocError> {
    let fields = fields_of(alloc, line)?;
    for stream in fields.chunks_exact(3) {
        match stream_of(stream) {
            Some(stream) => turn.push(stream)?,
            None => return Ok(false),
        }
    }
    Ok(true)
}

// A graph with these streams in turn. `None` if there are none or one is beyond the limits.
fn full_graph(alloc: Global, turn: &[Stream]) -> Result<Option<Graph>, AllocError> {
    let mut graph = Graph::new(alloc, 2);
    if fill(&mut graph, turn)? {
        Ok(Some(graph))
    } else {
        Ok(None)
    }
}

// Appends these streams in turn, until there are as many as a graph may have. False if there are none or one is beyond the limits.
fn fill(graph: &mut Graph, turn: &[Stream]) -> Result<bool, AllocError> {
    if turn.is_empty() {
        return Ok(false);
    }
    for j in 0..MOST_STREAMS {
        let stream = turn[j % turn.len()];
        if !graph.fits(&stream) {
            return Ok(false);
        }
        graph.push(stream)?;
    }
    Ok(true)
}

fn stream_of(fields: &[&[u8]]) -> Option<Stream> {
    let [side, value, variance] = fields else {
        return None;
    };
    let (from, to) = match *side {
        b"in" => (0, 1),
        b"out" => (1, 0),
        _ => return None,
    };
    let value = read_whole(value, i128::MIN, i128::MAX)?;
    let variance = read_whole(variance, i128::MIN, i128::MAX)?;
    Some(Stream {
        from,
        to,
        meas: Some(Meas { value, variance }),
    })
}

// What enters the unit less what leaves it.
fn net(graph: &Graph, solver: &Solver) -> i128
    requires { length graph.now.streams ≤ length solver.now.graph.streams }
{
    let mut net = 0_i128;
    for j in 0..graph.len() {
        let flow = solver.flow(j);
        net = if graph.stream(j).to == 1 {
            net.wrapping_add(flow)
        } else {
            net.wrapping_sub(flow)
        };
    }
    net
}

// Whether the study without tests is one stage, which passes its check.
fn passes(alloc: Global, graph: &Graph) -> Result<bool, AllocError> {
    let options = Options {
        gap: GAP,
        sweeps: SWEEPS,
        tests: false,
        eliminate: 0,
    };
    let critical = Critical {
        global: List::new(alloc),
        nodal: None,
        measure: None,
    };
    let study = study(alloc, graph, &options, &critical)?;
    let first = study.stages.at(0);
    Ok(study.stages.len() == 1 && check(alloc, first, GAP, SWEEPS).is_ok())
}

/// Appends a row of what comes out of a line: how the solver ended, the price of the unit, the net flow of the unit, and whether the
/// stage passes its check.
pub fn append_outcome(alloc: Global, line: &[u8], text: &mut Vec<u8>) -> Result<(), AllocError> {
    match graph_of(alloc, line)? {
        Some(graph) => append_outcome_of(alloc, &graph, text),
        None => text.extend_from_slice(b"no graph\n"),
    }
}

fn append_outcome_of(alloc: Global, graph: &Graph, text: &mut Vec<u8>) -> Result<(), AllocError> {
    append_solution(alloc, graph, text)?;
    if passes(alloc, graph)? {
        text.extend_from_slice(b",passes\n")
    } else {
        text.extend_from_slice(b",fails\n")
    }
}

fn append_solution(alloc: Global, graph: &Graph, text: &mut Vec<u8>) -> Result<(), AllocError> {
    let mut solver = Solver::new(alloc, graph)?;
    let solved = solver.solve(GAP, SWEEPS);
    let price = solver.price(graph.nodes() - 1);
    let net = net(graph, &solver);
    append_numbers(alloc, solved, price, net, text)
}

// Appends how the solver ended, and after how many sweeps, a price and a net flow.
fn append_numbers(
    alloc: Global,
    solved: Solved,
    price: i128,
    net: i128,
    text: &mut Vec<u8>,
) -> Result<(), AllocError> {
    let (word, sweeps): (&[u8], u32) = match solved {
        Solved::Converged(k) => (b"converged", k),
        Solved::Unconverged(k) => (b"unconverged", k),
    };
    text.extend_from_slice(word)?;
    for number in [i128::from(sweeps), price, net] {
        text.push(b',')?;
        text.extend_from_slice(&whole_bytes(alloc, number)?)?;
    }
    Ok(())
}
