//! Comparisons that the tests share.

use pb_study::{Bounds, Solved};
use std::process::Abort;

/// What a solution should say: how the sweeps ended, the gap, the degrees of freedom, and the statistic.
#[derive(Clone, Copy)]
pub struct Numbers {
    pub solved: Solved,
    pub g: u64,
    pub h: u32,
    pub dof: u32,
    pub low: i128,
    pub high: Option<i128>,
}

pub fn assert_numbers(rt: &impl Abort, found: Numbers, wanted: Numbers) {
    assert_eq!(rt;
        (
            found.solved,
            found.g,
            found.h,
            found.dof,
            found.low,
            found.high
        ),
        (
            wanted.solved,
            wanted.g,
            wanted.h,
            wanted.dof,
            wanted.low,
            wanted.high
        ),
        "how the sweeps ended, the gap, the degrees of freedom and the statistic"
    );
}

/// Compares a count.
pub fn assert_count(rt: &impl Abort, what: &str, found: usize, wanted: usize) {
    assert_eq!(rt; found, wanted, "{what}");
}

/// Compares an amount at a place.
pub fn assert_at(rt: &impl Abort, what: &str, place: usize, found: i128, wanted: i128) {
    assert_eq!(rt; found, wanted, "{what} {place}");
}

/// Compares an amount with the one at its place in a list.
pub fn assert_listed(rt: &impl Abort, what: &str, place: u32, found: i128, wanted: &[i128]) {
    let place = place as usize;
    assert!(rt; place < wanted.len(), "{what} {place}");
    assert_at(rt, what, place, found, wanted[place]);
}

/// Compares bounds of a stream.
pub fn assert_bounds(
    rt: &impl Abort,
    what: &str,
    stream: usize,
    found: Option<Bounds>,
    wanted: Option<Bounds>,
) {
    assert_eq!(rt; found, wanted, "{what} of stream {stream}");
}

pub const fn within(lo: i128, hi: i128) -> Option<Bounds> {
    Some(Bounds { lo, hi })
}
