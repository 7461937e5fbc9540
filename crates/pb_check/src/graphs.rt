// Tests 1 to 6, one after another: what the graph, its classes, flows and prices decide.

ghost use Rattle.std.specs.Prelude.{ℕ, IfOk};
ghost use Rattle.pb_study.specs.WellFormed.{IsWellFormed};
ghost use Rattle.pb_check.specs.Among.{IsAmong};

use crate::balance::balance_fault;
use crate::boxes::box_fault;
use crate::classes::{class_fault, witness_fault};
use crate::faults::{Fault, Test};
use crate::freedom::freedom_fault;
use crate::prices::price_fault;
use pb_study::Stage;
use std::alloc::{AllocError, Global};

/// The first of the tests 1 to 6 that the stage fails.
pub fn first_of_graph(alloc: Global, stage: &Stage) -> Result<Option<(Test, Fault)>, AllocError>
    requires { IsWellFormed stage.now }
    ensures { IfOk result (λ first. (gap sweeps : ℕ) → IsAmong stage.now gap sweeps 1 6 first) }
{
    if let Some(fault) = class_fault(stage) {
        return Ok(Some((Test::Class, fault)));
    }
    if let Some(fault) = witness_fault(stage) {
        return Ok(Some((Test::Witness, fault)));
    }
    if let Some(fault) = balance_fault(alloc, stage)? {
        return Ok(Some((Test::Balance, fault)));
    }
    if let Some(fault) = price_fault(alloc, stage)? {
        return Ok(Some((Test::Price, fault)));
    }
    if let Some(fault) = box_fault(stage) {
        return Ok(Some((Test::Box, fault)));
    }
    if let Some(fault) = freedom_fault(alloc, stage)? {
        return Ok(Some((Test::Freedom, fault)));
    }
    Ok(None)
}
