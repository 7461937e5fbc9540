// Test 4: the price of each node.

ghost use Rattle.std.specs.Prelude.{◌≡◌, ◌<◌, ℕ, pos, IfOk, MatchOption, if◌then◌else◌};
ghost use Rattle.std.specs.Ordering.{int_eq};
ghost use Rattle.pb_graph.specs.ProcessGraph.{IsProcessGraph};
ghost use Rattle.pb_study.specs.WellFormed.{IsWellFormed};
ghost use Rattle.pb_graph.specs.Grouping.{AreGroupsOf};
ghost use Rattle.pb_stage.specs.Printed.{printed_price};
ghost use Rattle.pb_check.specs.Asked.{HasGroupPriceAt};
ghost use Rattle.pb_check.specs.Faults.{IsPriceFault};
ghost use Rattle.pb_check.specs.Places.{IsOtherPrice};

use crate::faults::{Fault, Place};
use pb_graph::Groups;
use pb_study::Stage;
use std::alloc::{AllocError, Global};

// If the price of a node isn't that of the least node of its group: the price of that least node. If it is, and the group isn't free, but
// the price isn't 0: 0.
fn other_price(stage: &Stage, groups: &Groups, node: u32) -> Option<i128>
    requires formed { IsWellFormed stage.now }
    requires limits { IsProcessGraph stage.now.graph }
    requires groups { AreGroupsOf stage.now.graph groups.now }
    requires node { node < stage.now.graph.nodes }
    ensures { MatchOption result (HasGroupPriceAt stage.now node) (IsOtherPrice stage.now node) }
{
    let group = groups.group(node);
    let price = *stage.prices.at(node as usize);
    let shared = *stage.prices.at(groups.least(group) as usize);
    if price != shared {
        return Some(shared);
    }
    if price != 0 && !groups.free(group) {
        return Some(0);
    }
    None
}

// The fault at the first node whose price isn't that of its group.
fn first_mispriced(stage: &Stage, groups: &Groups) -> Option<Fault>
    requires formed { IsWellFormed stage.now }
    requires groups { AreGroupsOf stage.now.graph groups.now }
    ensures { MatchOption result
        ((n : ℕ) → n < stage.now.graph.nodes → HasGroupPriceAt stage.now n)
        (IsPriceFault stage.now) }
{
    for node in 0..stage.graph.nodes() {
        if let Some(found) = other_price(stage, groups, node) {
            return Some(Fault {
                place: Place::Node(node),
                stated: *stage.prices.at(node as usize),
                found,
            });
        }
    }
    None
}

/// Test 4: the nodes of a group share a price, which is 0 if the group isn't free.
pub fn price_fault(alloc: Global, stage: &Stage) -> Result<Option<Fault>, AllocError>
    requires { IsWellFormed stage.now }
    ensures { IfOk result
        (λ fault. MatchOption fault
        ((n : ℕ) → n < stage.now.graph.nodes → HasGroupPriceAt stage.now n)
        (IsPriceFault stage.now)) }
{
    let groups = Groups::of(alloc, &stage.graph)?;
    Ok(first_mispriced(stage, &groups))
}
