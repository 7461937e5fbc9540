// The side and the parts of a certificate, as texts.

ghost use Rattle.std.specs.Prelude.{◌≡◌, ◌<◌, ◌++◌, [], length, string_bytes, codes, int_le, pos, All, IfOk, OnOk, if◌then◌else◌};
ghost use Rattle.pb_graph.specs.declared.records.Member.{Member};
ghost use Rattle.pb_graph.specs.declared.records.Step.{Step};
ghost use Rattle.pb_report.specs.Pieces.{gap_before};
ghost use Rattle.pb_report.specs.Certificate.{names_in, spaced, member_text, step_text};

use pb_graph::{Member, Step};
use pb_rows::{Name, NameList};
use std::alloc::{AllocError, Global};

/// The names of the nodes in a side, in order, separated by one space.
pub fn side_text(alloc: Global, nodes: &NameList, side: &[bool]) -> Result<String, AllocError>
    requires { length side.now ≡ length nodes.now }
    ensures { IfOk result
        (λ text. string_bytes text ≡ spaced (λ name. name) (names_in side.now nodes.now)) }
{
    let mut text = String::new(alloc);
    let mut first = true;
    for (node, inside) in side.iter().enumerate() {
        if *inside {
            add_piece(&mut text, first, "", nodes.at(node))?;
            first = false;
        }
    }
    Ok(text)
}

/// The members of a cut in order, each with its sign before its name, separated by one space.
pub fn members_text(
    alloc: Global,
    streams: &NameList,
    members: &[Member],
) -> Result<String, AllocError>
    requires { All (λ (member : Member). member.stream < length streams.now) members.now }
    ensures { IfOk result
        (λ text. string_bytes text ≡ spaced (member_text streams.now) members.now) }
{
    let mut text = String::new(alloc);
    for (i, member) in members.iter().enumerate() {
        let name = streams.at(member.stream as usize);
        add_part(&mut text, i == 0, enters(member), name)?;
    }
    Ok(text)
}

/// The steps of a cycle in order, each with its direction before its name, separated by one space.
pub fn steps_text(alloc: Global, streams: &NameList, steps: &[Step]) -> Result<String, AllocError>
    requires { All (λ (step : Step). step.stream < length streams.now) steps.now }
    ensures { IfOk result (λ text. string_bytes text ≡ spaced (step_text streams.now) steps.now) }
{
    let mut text = String::new(alloc);
    for (i, step) in steps.iter().enumerate() {
        let name = streams.at(step.stream as usize);
        add_part(&mut text, i == 0, step.forward, name)?;
    }
    Ok(text)
}

// Whether a member of a cut enters the side.
fn enters(member: &Member) -> bool
    ensures { result ≡ int_le (pos 0) member.now.sign }
{
    member.sign >= 0
}

// Appends a part: a sign and a name, after a space unless it is the first.
fn add_part(text: &mut String, first: bool, positive: bool, name: &Name) -> Result<(), AllocError>
    ensures { OnOk result
        (string_bytes text.new ≡ string_bytes text.old
        ++ (gap_before first ++ ((if positive then codes "+" else codes "-") ++ name.now))) }
{
    let sign = if positive { "+" } else { "-" };
    add_piece(text, first, sign, name)
}

// Appends a piece of a list: a mark and a name, after a space unless it is the first.
fn add_piece(text: &mut String, first: bool, mark: &str, name: &Name) -> Result<(), AllocError>
    ensures { OnOk result
        (string_bytes text.new
        ≡ string_bytes text.old ++ (gap_before first ++ (mark.now ++ name.now))) }
{
    if !first {
        text.push_str(" ")?;
    }
    text.push_str(mark)?;
    text.push_str(name.as_str())?;
    Ok(())
}
