// The names of a window's nodes and streams.

ghost use Rattle.std.specs.Prelude.{◌≡◌, true, IfOk};
ghost use Rattle.pb_rows.specs.Name.{is_name_byte};
ghost use Rattle.pb_plan.specs.Codes.{code_text, node_code, stream_code};

use crate::window::{Source, WindowNode, WindowStream};
use pb_rows::{Name, whole_bytes};
use std::alloc::{AllocError, Global};

// A letter, a number, a dot and a number.
fn code_text(alloc: Global, letter: u8, period: u32, place: u32) -> Result<Vec<u8>, AllocError>
    ensures { IfOk result (λ text. text.items ≡ code_text letter period place) }
{
    let mut text = Vec::new(alloc);
    text.push(letter)?;
    text.extend_from_slice(&whole_bytes(alloc, i128::from(period))?)?;
    text.push(b'.')?;
    text.extend_from_slice(&whole_bytes(alloc, i128::from(place))?)?;
    Ok(text)
}

// The same text as a name.
fn code(alloc: Global, letter: u8, period: u32, place: u32) -> Result<Name, AllocError>
    requires { is_name_byte letter ≡ true }
    ensures { IfOk result (λ name. name ≡ code_text letter period place) }
{
    let text = code_text(alloc, letter, period, place)?;
    Ok(Name::read(&text).unwrap())
}

/// The name of a node of a window: `n`, the number of its period, and its place in the graph of that period.
pub fn node_code(alloc: Global, node: &WindowNode) -> Result<Name, AllocError>
    ensures { IfOk result (λ name. name ≡ node_code node.now) }
{
    code(alloc, b'n', node.period, node.place)
}

/// The name of a stream of a window. The name of a flow is `s`, the number of its period, and its place in the graph of that period; the
/// name of a content is `c`, the number of the period that it follows, and the number of the tank's arc.
pub fn stream_code(alloc: Global, stream: &WindowStream) -> Result<Name, AllocError>
    ensures { IfOk result (λ name. name ≡ stream_code stream.now) }
{
    let letter = match stream.source {
        Source::Flow => b's',
        Source::Content(_) => b'c',
    };
    code(alloc, letter, stream.period, stream.place)
}
