// The variance of each group, and which groups are free.

ghost use Rattle.std.specs.Prelude.{◌≡◌, ℕ, ◌<◌, ◌≤◌, ◌==◌, not, ◌&&◌, false, pos, ◌+ℤ◌, int_lt, length, get_or, vec_len, All, IfOk, if◌then◌else◌, unsigned_abs};
ghost use Rattle.pb_limits.specs.Limits.{most_streams, most_variance};
ghost use Rattle.pb_graph.specs.ProcessGraph.{IsStream, IsWithinLimits};
ghost use Rattle.pb_graph.specs.Groups.{is_one_end};
ghost use Rattle.pb_graph.specs.Variance.{crossing_variance, group_variance, most_group_variance};

use crate::records::Stream;
use std::alloc::{AllocError, Global};

// Adds a variance to the two groups that a stream joins, if they differ.
fn add_crossing(totals: &mut [i128], from: u32, to: u32, variance: i128)
    requires from { from < length totals.old }
    requires to { to < length totals.old }
    requires room { All (λ v. unsigned_abs v ≤ most_group_variance) totals.old }
    requires variance { unsigned_abs variance ≤ most_variance }
    ensures { (k : ℕ) → k < length totals.old
        → get_or totals.new k (pos 0)
        ≡ get_or totals.old k (pos 0) +ℤ (if is_one_end from to k then variance else pos 0) }
{
    if from != to {
        totals[from as usize] += variance;
        totals[to as usize] += variance;
    }
}

// Adds the variance of a measured stream to the two groups that it joins, if they differ.
fn add_stream(totals: &mut [i128], group: &[u32], stream: &Stream)
    requires ends { IsStream (length group.now) stream.now }
    requires limits { IsWithinLimits stream.now }
    requires groups { All (λ k. k < length totals.old) group.now }
    requires room { All (λ v. unsigned_abs v ≤ most_group_variance) totals.old }
    ensures { (k : ℕ) → k < length totals.old
        → get_or totals.new k (pos 0)
        ≡ get_or totals.old k (pos 0) +ℤ crossing_variance group.now k stream.now }
{
    if let Some(meas) = stream.meas {
        add_crossing(
            totals,
            group[stream.from as usize],
            group[stream.to as usize],
            meas.variance,
        );
    }
}

// Adds the variances of all streams to totals of 0.
fn add_all(totals: &mut [i128], group: &[u32], streams: &[Stream])
    requires few { length streams.now ≤ most_streams }
    requires ends { All (IsStream (length group.now)) streams.now }
    requires limits { All IsWithinLimits streams.now }
    requires groups { All (λ k. k < length totals.old) group.now }
    requires zero { All (λ v. v ≡ pos 0) totals.old }
    ensures { (k : ℕ) → k < length totals.old
        → get_or totals.new k (pos 0) ≡ group_variance group.now k streams.now }
{
    for stream in streams {
        add_stream(totals, group, stream);
    }
}

/// The variance of each of the groups.
pub fn variances(
    alloc: Global,
    groups: usize,
    group: &[u32],
    streams: &[Stream],
) -> Result<Vec<i128>, AllocError>
    requires few { length streams.now ≤ most_streams }
    requires ends { All (IsStream (length group.now)) streams.now }
    requires limits { All IsWithinLimits streams.now }
    requires groups { All (λ k. k < groups) group.now }
    ensures each { IfOk result (λ v. vec_len v ≡ groups) }
    ensures value { IfOk result (λ v. (k : ℕ) → k < groups
        → get_or v.items k (pos 0) ≡ group_variance group.now k streams.now) }
{
    let mut totals = vec![in alloc; 0i128; groups]?;
    add_all(&mut totals, group, streams);
    Ok(totals)
}

// Whether a group is free, from its number and its variance. The group has a stream with exactly one end in it exactly when it has
// some variance: only measured streams lead from one group to another, and each has a variance of at least 1.
fn is_free(group: usize, variance: i128) -> bool
    ensures { result ≡ (not (0 == group) && int_lt (pos 0) variance) }
{
    group != 0 && variance > 0
}

/// Whether each group is free: it isn't the group of node 0, and has some variance.
pub fn free_groups(alloc: Global, variance: &[i128]) -> Result<Vec<bool>, AllocError>
    ensures each { IfOk result (λ v. vec_len v ≡ length variance.now) }
    ensures value { IfOk result (λ v. (k : ℕ) → k < length variance.now
        → get_or v.items k false
        ≡ (not (0 == k) && int_lt (pos 0) (get_or variance.now k (pos 0)))) }
{
    let mut free = Vec::new(alloc);
    for (k, v) in variance.iter().enumerate() {
        free.push(is_free(k, *v))?;
    }
    Ok(free)
}
