// Values from outside: worked rows, and the least and the greatest arguments.

ghost use Rattle.std.specs.Prelude.{◌<◌, ◌^◌};

use pb_fixed::*;
use std::alloc::{AllocError, Global};
use std::test::Fail;

const MOST: i128 = (1 << 125) - 1;

// A quotient rounded down and rounded up, by a divisor above 0.
fn quotients_of(n: i128, d: i128) -> Option<(i128, i128)> {
    if d > 0 {
        Some((div_floor(n, d), div_ceil(n, d)))
    } else {
        None
    }
}

#[test]
fn quotients(rt: HostRuntime) {
    for (n, d, floor, ceil) in [
        (-7, 2, -4, -3),
        (7, 2, 3, 4),
        (6, 3, 2, 2),
        (0, 1, 0, 0),
        (i128::MIN, 1, i128::MIN, i128::MIN),
        (i128::MAX, 1, i128::MAX, i128::MAX),
        (i128::MIN, i128::MAX, -2, -1),
        (i128::MAX, i128::MAX, 1, 1),
        (-1, i128::MAX, -1, 0),
        (1, i128::MAX, 0, 1),
    ] {
        assert_eq!(rt; quotients_of(n, d), Some((floor, ceil)), "{n} / {d}");
    }
}

// The nearest quotient, within the range that it is for.
fn nearest(n: i128, d: i128) -> Option<i128> {
    if d > 0 && d <= MOST && n <= MOST && n >= -MOST {
        Some(div_nearest(n, d))
    } else {
        None
    }
}

#[test]
fn nearest_quotients(rt: HostRuntime) {
    for (n, d, want) in [
        (-1, 2, 0),
        (1, 2, 1),
        (-3, 2, -1),
        (4, 3, 1),
        (5, 3, 2),
        (MOST, 1, MOST),
        (-MOST, 1, -MOST),
        (MOST, MOST, 1),
        (-MOST, MOST, -1),
        (0, MOST, 0),
    ] {
        assert_eq!(rt; nearest(n, d), Some(want), "{n} / {d}");
    }
}

// The nearest quotient by a power of two, within the range that it is for.
fn shifted(n: i128, bits: u32) -> Option<i128> {
    if bits > 0 && bits < 126 && n <= MOST && n >= -MOST {
        Some(shift_nearest(n, bits))
    } else {
        None
    }
}

#[test]
fn nearest_shifts(rt: HostRuntime) {
    for (n, bits, want) in [
        (0, 1, 0),
        (-1, 1, 0),
        (1, 1, 1),
        (-3, 1, -1),
        (-5, 2, -1),
        (-6, 2, -1),
        (-7, 2, -2),
        (5, 2, 1),
        (6, 2, 2),
        (1 << 55, 56, 1),
        (-1 << 55, 56, 0),
        ((-1 << 55) - 1, 56, -1),
        (MOST, 125, 1),
        (-MOST, 125, -1),
        (-1 << 124, 125, 0),
    ] {
        assert_eq!(rt; shifted(n, bits), Some(want), "{n} / 2^{bits}");
    }
}

#[test]
fn roots(rt: HostRuntime) {
    for (n, floor) in [
        (0, 0),
        (3, 1),
        (4, 2),
        ((1 << 126) - 1, (1 << 63) - 1),
        (1 << 126, 1 << 63),
        (u128::MAX, u64::MAX),
    ] {
        assert_eq!(rt; root_floor(n), floor, "{n}");
    }
}

#[test]
fn roots_rounded_up(rt: HostRuntime) {
    for (n, ceil) in [(0, 0), (1, 1), (2, 2), (4, 2), (5, 3), (1 << 126, 1 << 63)] {
        assert!(rt; n <= 1 << 126, "{n}");
        assert_eq!(rt; root_ceil(n), ceil, "{n}");
    }
}

#[test]
fn scaled_roots(rt: HostRuntime) {
    for (v, root) in [
        (0, 0),
        (1, 1_048_576),
        (2, 1_482_910),
        (1 << 85, 6_521_908_912_666_391_106),
        ((1 << 86) - 1, (1 << 63) - 1),
        (1 << 86, 1 << 63),
    ] {
        assert!(rt; v >= 0 && v <= 1 << 86);
        assert_eq!(rt; scaled_root(v), root, "{v}");
    }
}

#[test]
fn exponents_of_blocks(rt: HostRuntime) {
    let none: [i128; 0] = [];
    assert_eq!(rt; block_exponent(&none), 0);
    assert_eq!(rt; block_exponent(&[1 << 57]), 0);
    assert_eq!(rt; block_exponent(&[(1 << 57) + 1]), 1);
    assert_eq!(rt; block_exponent(&[1 << 89]), 32);
    assert_eq!(rt; block_exponent(&[3, (1 << 60) + 1, 0]), 4);
}

#[test]
fn squares_of_blocks(rt: HostRuntime) {
    let none: [i128; 0] = [];
    assert_eq!(rt; block_squares(&none, 0), 0);
    assert_eq!(rt; block_squares(&[3, 4], 0), 25);
    assert_eq!(rt; block_squares(&[3, 4, 5], 1), 17);
    assert_eq!(rt; block_squares(&[1 << 89], 32), 1 << 114);
}

#[test]
fn half_widths(rt: HostRuntime) {
    assert_eq!(rt; half_width(1_048_577, 1_048_576, 0), 2);
    assert_eq!(rt; half_width(0, 0, 0), 0);
    assert_eq!(rt; half_width(1, 1, 0), 1);
    assert_eq!(rt; half_width(1 << 63, 1 << 63, 32), 1 << 118);
    assert_eq!(rt; half_width(1 << 63, 1 << 63, 0), 1 << 86);
}

// The exponent and the sum of the squares of this many items of 2^89.
fn greatest_items(alloc: Global, count: usize) -> Result<(u32, i128), AllocError>
    requires { count < 2 ^ 13 }
{
    let items = vec![in alloc; 1i128 << 89; count]?;
    Ok((block_exponent(&items), block_squares(&items, 32)))
}

#[test]
fn many_items(rt: HostRuntime) -> Result<(), Fail> {
    let found = greatest_items(rt.alloc(), 8_191)?;
    assert_eq!(rt; found, (32, 8_191 << 114), "8,191 items");
    Ok(())
}
