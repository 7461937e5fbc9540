// The order in which streams are taken.

ghost use Rattle.std.specs.Prelude.{◌≡◌, ◌<◌, ◌^◌, All, length, IfOk};
ghost use Rattle.pb_advise.specs.Choice.{IsCost};
ghost use Rattle.pb_advise.specs.Order.{AreCandidates, IsOrder};

use crate::limits::MOST_COST;
use pb_graph::Stream;
use std::alloc::{AllocError, Global};

// The unmeasured streams in order, each preceded by how far its cost is below the greatest one.
fn candidates(
    alloc: Global,
    streams: &[Stream],
    costs: &[i64],
) -> Result<Vec<(u64, u32)>, AllocError>
    requires few { length streams.now < 2 ^ 32 }
    requires each { length costs.now ≡ length streams.now }
    requires costs { All IsCost costs.now }
    ensures { IfOk result (λ list.
        AreCandidates costs.now streams.now (length streams.now) list.items) }
{
    let mut list = Vec::new(alloc);
    for (j, stream) in streams.iter().enumerate() {
        if stream.meas.is_none() {
            list.push((MOST_COST.abs_diff(costs[j]), j as u32))?;
        }
    }
    Ok(list)
}

/// The unmeasured streams by falling cost, the earlier first among those that cost the same. Each is preceded by how far its cost is below
/// the greatest one.
pub fn by_falling_cost(
    alloc: Global,
    streams: &[Stream],
    costs: &[i64],
) -> Result<Vec<(u64, u32)>, AllocError>
    requires few { length streams.now < 2 ^ 32 }
    requires each { length costs.now ≡ length streams.now }
    requires costs { All IsCost costs.now }
    ensures { IfOk result (λ list. IsOrder costs.now streams.now list.items) }
{
    let mut list = candidates(alloc, streams, costs)?;
    list.sort()?;
    Ok(list)
}
