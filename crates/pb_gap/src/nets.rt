// The net dual flows of groups, compared with what a met gap allows.

ghost use Rattle.std.specs.Prelude.{◌≡◌, ◌↔◌, ◌^◌, ◌<◌, ◌≤◌, pos, ◌*ℤ◌, ◌≤ℤ◌, ◌<ℤ◌, List as Seq, ℤ, unsigned_abs, IsTrue, IfOk};
ghost use Rattle.pb_graph.specs.Balance.{IsBalanced};
ghost use Rattle.pb_graph.specs.Variance.{most_group_variance};
ghost use Rattle.pb_dual.specs.Priced.{price_of};
ghost use Rattle.pb_gap.specs.Gap.{MeetsGap, gap_of};
ghost use Rattle.pb_gap.specs.Nets.{imbalance_root};
ghost use Rattle.pb_gap.specs.Iterate.{AreImbalanceRoots, HaveRoots, IsSmallRoot};

use crate::gap::most_deviation;
use pb_dual::Dual;
use pb_fixed::scaled_root;
use pb_graph::Groups;
use std::alloc::{AllocError, Global};

// The standard deviation of an imbalance of this variance in units of 2^-20 gram, rounded up.
fn imbalance_root(variance: i128) -> i128
    requires least { pos 0 ≤ℤ variance }
    requires greatest { variance ≤ℤ pos most_group_variance }
    ensures value { result ≡ imbalance_root variance }
    ensures small { IsSmallRoot result }
{
    scaled_root(variance) + 1
}

/// The standard deviation of each group's imbalance in units of 2^-20 gram, rounded up.
pub fn imbalance_roots(alloc: Global, groups: &Groups) -> Result<Vec<i128>, AllocError>
    ensures { IfOk result (λ v. AreImbalanceRoots groups.now v.items) }
{
    let mut roots = Vec::new(alloc);
    for k in 0..groups.count() {
        roots.push(imbalance_root(groups.variance(k)))?;
    }
    Ok(roots)
}

// The standard deviation of an imbalance times `most`, in units of 2^-56 gram; `most` is in units of 2^-20.
fn allowed(most: i128, root: i128) -> i128
    requires most_from { pos 0 ≤ℤ most }
    requires most_to { most <ℤ pos (2 ^ 43) }
    requires root { IsSmallRoot root }
    ensures value { result ≡ (most *ℤ root) *ℤ pos (2 ^ 16) }
    ensures from { pos 0 ≤ℤ result }
    ensures to { result ≤ℤ pos (2 ^ 122) }
{
    most * root * (1 << 16)
}

// Whether a net dual flow is beyond what is allowed.
fn is_far(net: i128, allowed: i128) -> bool
    requires { unsigned_abs net < 2 ^ 125 }
    ensures { IsTrue result ↔ (allowed <ℤ pos (unsigned_abs net)) }
{
    allowed < net.abs()
}

/// Whether the net dual flow of a group is beyond what a gap that is met at this many thousandths
/// allows. The groups before `first` aren't checked, and `first` becomes the first group that is beyond. (So over the sweeps each group
/// is checked until its net dual flow is small, and not again.)
pub fn is_beyond(dual: &Dual, roots: &[i128], thousandths: u32, first: &mut u32) -> bool
    requires { HaveRoots dual.now roots.now }
    ensures { IsTrue result → (flows : Seq ℤ) → IsBalanced dual.now.graph flows
        → MeetsGap thousandths (gap_of (price_of dual.now) dual.now.graph.streams flows) → ⊥ }
{
    let most = most_deviation(thousandths);
    for k in *first..dual.groups() {
        if is_far(dual.net_flow(k), allowed(most, roots[k as usize])) {
            *first = k;
            return true;
        }
    }
    *first = dual.groups();
    false
}
