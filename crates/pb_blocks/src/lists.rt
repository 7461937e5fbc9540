// The lists of a stream's row: the side of a cut, and the parts of a certificate.

ghost use Rattle.std.specs.Prelude.{◌≡◌, map, [], IfOk, IfNone, IfSome};
ghost use Rattle.std.specs.List.{list_all, list_any};
ghost use Rattle.pb_blocks.specs.Held.{AreKnown, IsNextPart, is_unknown_item, side_of};
ghost use Rattle.pb_blocks.specs.Lists.{is_part, is_plus, is_side, items, member_of, step_of};

use crate::items::{Items, is_name, is_plus, part_name};
use crate::known::Known;
use pb_graph::{List, Member, Step};
use std::alloc::{AllocError, Global};

// Whether some item has the form of a name and isn't one of these names.
pub(crate) fn has_unknown_item(names: &Known, text: &[u8]) -> bool
    ensures { result ≡ list_any (is_unknown_item names.now) (items text.now) }
{
    let mut items = Items::of(text);
    while let Some(item) = items.next() {
        if is_unknown_item(names, item) {
            return true;
        }
    }
    false
}

fn is_unknown_item(names: &Known, item: &[u8]) -> bool
    ensures { result ≡ is_unknown_item names.now item.now }
{
    is_name(item) && !names.has(item)
}

// Whether a list names nodes in order, none twice.
pub(crate) fn is_side(nodes: &Known, text: &[u8]) -> bool
    ensures { result ≡ is_side nodes.now (items text.now) }
{
    let mut least = 0;
    let mut items = Items::of(text);
    while let Some(item) = items.next() {
        let place = nodes.place(item);
        if !is_name(item) || place < least {
            return false;
        }
        least = place + 1;
    }
    true
}

// Whether each item is a sign with a name.
pub(crate) fn are_parts(text: &[u8]) -> bool
    ensures { result ≡ list_all is_part (items text.now) }
{
    let mut items = Items::of(text);
    while items.next_part().is_some() {}
    items.next().is_none()
}

// For each node, whether it is among the items.
pub(crate) fn side_of(alloc: Global, nodes: &Known, text: &[u8]) -> Result<List<bool>, AllocError>
    ensures { IfOk result (λ side. side ≡ side_of nodes.now (items text.now)) }
{
    let mut side = vec![in alloc; false; nodes.len() as usize]?;
    mark(&mut side, nodes, text);
    Ok(List::from_vec(side))
}

// Marks the nodes that are among the items.
fn mark(side: &mut [bool], nodes: &Known, text: &[u8])
    requires known { AreKnown nodes.now }
    requires none { side.old ≡ side_of nodes.now [] }
    ensures { side.new ≡ side_of nodes.now (items text.now) }
{
    let mut items = Items::of(text);
    while let Some(item) = items.next() {
        match nodes.find(item) {
            Some(place) => side[place as usize] = true,
            None => {}
        }
    }
}

// The parts as the members of a cut.
pub(crate) fn members_of(
    alloc: Global,
    streams: &Known,
    text: &[u8],
) -> Result<List<Member>, AllocError>
    ensures { IfOk result (λ members. members ≡ map (member_of streams.now) (items text.now)) }
{
    let mut members = List::new(alloc);
    let mut near = 0;
    let mut items = Items::of(text);
    while let Some(part) = next_part(streams, &mut items, near) {
        near = part.stream.wrapping_add(1);
        members.push(Member {
            stream: part.stream,
            sign: if part.is_plus { 1 } else { -1 },
        })?;
    }
    Ok(members)
}

// The parts as the steps of a cycle.
pub(crate) fn steps_of(
    alloc: Global,
    streams: &Known,
    text: &[u8],
) -> Result<List<Step>, AllocError>
    ensures { IfOk result (λ steps. steps ≡ map (step_of streams.now) (items text.now)) }
{
    let mut steps = List::new(alloc);
    let mut near = 0;
    let mut items = Items::of(text);
    while let Some(part) = next_part(streams, &mut items, near) {
        near = part.stream.wrapping_add(1);
        steps.push(Step {
            stream: part.stream,
            forward: part.is_plus,
        })?;
    }
    Ok(steps)
}

/// A part with its stream looked up: the place of its name among the streams, or the number of streams if no stream has this name.
#[derive(Clone, Copy)]
struct Part {
    stream: u32,
    is_plus: bool,
}

// Takes the next item as a part. Its name is looked for first at the place where it is expected.
fn next_part(streams: &Known, items: &mut Items, near: u32) -> Option<Part>
    ensures none { IfNone result (items.old ≡ []) }
    ensures some { IfSome result
        (λ part. IsNextPart streams.now items.old items.new part.stream part.is_plus) }
{
    if let Some(name) = streams.name_at(near) {
        if let Some(is_plus) = items.next_named(name.bytes()) {
            return Some(Part {
                stream: near,
                is_plus,
            });
        }
    }
    let item = items.next()?;
    Some(Part {
        stream: streams.place(part_name(item)),
        is_plus: is_plus(item),
    })
}
