// Test 6: the degrees of freedom.

ghost use Rattle.std.specs.Prelude.{◌≡◌, ℕ, pos, IfOk, MatchOption};
ghost use Rattle.pb_stage.specs.Freedom.{HasFreedom};
ghost use Rattle.pb_check.specs.Faults.{IsWholeFault};

use crate::faults::{Fault, whole};
use pb_forest::Forest;
use pb_study::Stage;
use std::alloc::{AllocError, Global};

/// Test 6: the degrees of freedom are the number of measured streams in the spanning forest.
pub fn freedom_fault(alloc: Global, stage: &Stage) -> Result<Option<Fault>, AllocError>
    ensures { IfOk result
        (λ found. MatchOption found (HasFreedom stage.now.graph.streams stage.now.dof)
        (λ fault. (dof : ℕ) × HasFreedom stage.now.graph.streams dof
        × IsWholeFault (stage.now.dof ≡ dof) (pos stage.now.dof, pos dof) fault)) }
{
    let dof = Forest::of(alloc, &stage.graph)?.rank();
    if stage.dof == dof {
        return Ok(None);
    }
    Ok(Some(whole(i128::from(stage.dof), i128::from(dof))))
}
