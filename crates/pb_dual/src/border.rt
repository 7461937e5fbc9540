// The measured streams at the border of a group, as seen from the group.

ghost use Rattle.std.specs.Prelude.{◌≡◌, ℕ, ◌^◌, ◌<◌, ◌≤◌, [], ◌++◌, pos, ◌<ℤ◌, length, map, get_or, set, vec_len, All, IfOk, OnOk};
ghost use Rattle.std.specs.Option.{option_to_list};
ghost use Rattle.pb_limits.specs.Limits.{most_streams};
ghost use Rattle.pb_graph.specs.ProcessGraph.{IsStream, IsWithinLimits};
ghost use Rattle.pb_graph.specs.Groups.{is_one_end};
ghost use Rattle.pb_graph.specs.Prices.{most_adjustment};
ghost use Rattle.pb_dual.specs.Candidates.{room_of};
ghost use Rattle.pb_dual.specs.Border.{HasLimits, seen_at, border_of, border_variance, border_room};

use pb_fixed::div_floor;
use pb_graph::{List, MOST_ADJUSTMENT, Stream};
use std::alloc::{AllocError, Global};

/// A measured stream with exactly one end in a group, as seen from the group.
#[derive(Clone, Copy, Debug)]
pub struct BorderStream {
    /// The number of the stream.
    pub stream: u32,
    /// The number of the group at the other end.
    pub other: u32,
    pub enters: bool,
    pub value: i128,
    pub variance: i128,
    /// The most by which the prices at its ends may differ.
    pub room: i128,
}

// The most by which the prices at the ends of a stream of this variance may differ.
fn room(variance: i128) -> i128
    requires { pos 0 <ℤ variance }
    ensures { result ≡ room_of variance }
{
    div_floor(MOST_ADJUSTMENT, variance)
}

// Whether exactly one of two ends is in group `k`.
fn is_one_end(from: u32, to: u32, k: u32) -> bool
    ensures { result ≡ is_one_end from to k }
{
    if to == k { from != k } else { from == k }
}

// Stream `j` as a stream at the border of group `k`, if it is there.
fn seen_from(group: &[u32], k: u32, j: u32, stream: &Stream) -> Option<BorderStream>
    requires ends { IsStream (length group.now) stream.now }
    requires limits { IsWithinLimits stream.now }
    ensures { result ≡ seen_at group.now k j stream.now }
{
    let from = group[stream.from as usize];
    let to = group[stream.to as usize];
    match stream.meas {
        Some(m) if is_one_end(from, to, k) => Some(BorderStream {
            stream: j,
            other: if to == k { from } else { to },
            enters: to == k,
            value: m.value,
            variance: m.variance,
            room: room(m.variance),
        }),
        _ => None,
    }
}

// Adds stream `j` to the border of group `k`, if it is there.
fn add_border_stream(
    borders: &mut [List<BorderStream>],
    group: &[u32],
    k: u32,
    j: u32,
    stream: &Stream,
) -> Result<(), AllocError>
    requires group { k < length borders.old }
    requires ends { IsStream (length group.now) stream.now }
    requires limits { IsWithinLimits stream.now }
    ensures { OnOk result
        (borders.new
        ≡ set borders.old k
        (get_or borders.old k [] ++ option_to_list (seen_at group.now k j stream.now))) }
{
    if let Some(seen) = seen_from(group, k, j, stream) {
        let own = &mut borders[k as usize];
        own.push(seen)?;
    }
    Ok(())
}

// Adds stream `j` to the borders of the groups of its ends, if these groups differ.
fn add_stream(
    borders: &mut [List<BorderStream>],
    group: &[u32],
    j: u32,
    stream: &Stream,
) -> Result<(), AllocError>
    requires groups { All (λ k. k < length borders.old) group.now }
    requires ends { IsStream (length group.now) stream.now }
    requires limits { IsWithinLimits stream.now }
    ensures { OnOk result
        ((k : ℕ) → k < length borders.old
        → get_or borders.new k []
        ≡ get_or borders.old k [] ++ option_to_list (seen_at group.now k j stream.now)) }
{
    let from = group[stream.from as usize];
    let to = group[stream.to as usize];
    if from != to {
        add_border_stream(borders, group, from, j, stream)?;
        add_border_stream(borders, group, to, j, stream)?;
    }
    Ok(())
}

// Adds all streams to borders that are empty.
fn add_all(
    borders: &mut [List<BorderStream>],
    group: &[u32],
    streams: &[Stream],
) -> Result<(), AllocError>
    requires groups { All (λ k. k < length borders.old) group.now }
    requires ends { All (IsStream (length group.now)) streams.now }
    requires limits { All IsWithinLimits streams.now }
    requires few { length streams.now ≤ most_streams }
    requires none { (k : ℕ) → k < length borders.old → get_or borders.old k [] ≡ [] }
    ensures { OnOk result
        ((k : ℕ) → k < length borders.old
        → get_or borders.new k [] ≡ border_of group.now k streams.now) }
{
    for (j, stream) in streams.iter().enumerate() {
        add_stream(borders, group, j as u32, stream)?;
    }
    Ok(())
}

// This many empty borders.
fn no_borders(alloc: Global, groups: u32) -> Result<Vec<List<BorderStream>>, AllocError>
    ensures each { IfOk result (λ v. vec_len v ≡ groups) }
    ensures none { IfOk result (λ v. (k : ℕ) → k < groups → get_or v.items k [] ≡ []) }
{
    let mut borders = Vec::new(alloc);
    for _k in 0..groups {
        borders.push(List::new(alloc))?;
    }
    Ok(borders)
}

/// The border of each of the groups, in the order of the streams.
pub fn all_borders(
    alloc: Global,
    groups: u32,
    group: &[u32],
    streams: &[Stream],
) -> Result<Vec<List<BorderStream>>, AllocError>
    requires groups { All (λ k. k < groups) group.now }
    requires ends { All (IsStream (length group.now)) streams.now }
    requires limits { All IsWithinLimits streams.now }
    requires few { length streams.now ≤ most_streams }
    ensures each { IfOk result (λ v. vec_len v ≡ groups) }
    ensures value { IfOk result
        (λ v. (k : ℕ) → k < groups → get_or v.items k [] ≡ border_of group.now k streams.now) }
{
    let mut borders = no_borders(alloc, groups)?;
    add_all(&mut borders, group, streams)?;
    Ok(borders)
}

// The sum of the variances at a border.
fn variance(border: &[BorderStream]) -> i128
    requires few { length border.now ≤ most_streams }
    requires each { All HasLimits border.now }
    ensures { result ≡ border_variance border.now }
{
    let mut total = 0;
    for stream in border {
        total += stream.variance;
    }
    total
}

// The least room at a border, at most the room of the least variance.
fn least_room(border: &[BorderStream]) -> i128
    ensures { result ≡ border_room (pos most_adjustment) border.now }
{
    let mut least = MOST_ADJUSTMENT;
    for stream in border {
        least = least.min(stream.room);
    }
    least
}

/// The sum of the variances at each border.
pub fn variances(alloc: Global, borders: &[List<BorderStream>]) -> Result<Vec<i128>, AllocError>
    requires few { All (λ border. length border ≤ most_streams) borders.now }
    requires each { All (All HasLimits) borders.now }
    ensures { IfOk result (λ v. v.items ≡ map border_variance borders.now) }
{
    let mut variances = Vec::new(alloc);
    for border in borders {
        variances.push(variance(border.as_slice()))?;
    }
    Ok(variances)
}

/// The least room at each border.
pub fn least_rooms(alloc: Global, borders: &[List<BorderStream>]) -> Result<Vec<i128>, AllocError>
    ensures { IfOk result (λ v. v.items ≡ map (border_room (pos most_adjustment)) borders.now) }
{
    let mut rooms = Vec::new(alloc);
    for border in borders {
        rooms.push(least_room(border.as_slice()))?;
    }
    Ok(rooms)
}
