// Sums of squares in few bits: a list of numbers in blocks of one power of two.

ghost use Rattle.std.specs.Prelude.{◌≡◌, ℕ, ◌*◌, ◌+◌, ◌^◌, ◌<◌, ◌≤◌, pos, ◌*ℤ◌, ◌≤ℤ◌, ◌<ℤ◌, All, length};
ghost use Rattle.pb_fixed.specs.Quotients.{IsCeiling};
ghost use Rattle.pb_fixed.specs.Blocks.{IsBlockItem, IsBlockExponent, FitBlocks, block_exponent_of, block_squares_of, blocks_of, half_width_of};

use crate::quotients::div_ceil;

/// The least `h` with every item at most 2^(57 + h), for items from 0 to 2^89.
pub fn block_exponent(items: &[i128]) -> u32
    requires each { All IsBlockItem items.now }
    ensures value { result ≡ block_exponent_of items.now }
    ensures exponent { IsBlockExponent items.now result }
    ensures width { result ≤ 32 }
{
    let mut most = 0;
    for item in items {
        most = exponent(*item).max(most);
    }
    most
}

// The least `h` with the item at most 2^(57 + h).
fn exponent(item: i128) -> u32
    requires { IsBlockItem item }
    ensures fits { item ≤ℤ pos (2 ^ (57 + result)) }
    ensures least { (k : ℕ) → item ≤ℤ pos (2 ^ (57 + k)) → result ≤ k }
    ensures width { result ≤ 32 }
{
    if item <= 1 << 57 {
        0
    } else {
        (item - 1).ilog2() - 56
    }
}

/// The sum of the squares of the items in blocks of 2^h, each item rounded up to whole blocks. A
/// square is at most 2^114, so the sum of fewer than 2^13 of them is within 128 bits.
pub fn block_squares(items: &[i128], h: u32) -> i128
    requires few { length items.now < 2 ^ 13 }
    requires each { All IsBlockItem items.now }
    requires fit { FitBlocks h items.now }
    requires most { h ≤ 32 }
    ensures value { result ≡ block_squares_of items.now h }
    ensures nonneg { pos 0 ≤ℤ result }
    ensures width { result ≤ℤ pos (length items.now * 2 ^ 114) }
{
    let mut sum = 0;
    for item in items {
        let count = blocks(*item, h);
        sum += count * count;
    }
    sum
}

// An item in blocks of 2^h, rounded up.
fn blocks(item: i128, h: u32) -> i128
    requires nonneg { pos 0 ≤ℤ item }
    requires fits { item ≤ℤ pos (2 ^ (57 + h)) }
    requires most { h ≤ 32 }
    ensures value { result ≡ blocks_of h item }
    ensures nonneg { pos 0 ≤ℤ result }
    ensures width { result ≤ℤ pos (2 ^ 57) }
{
    div_ceil(item, 1 << h)
}

/// The half width of a bound in grams, rounded up, from a standard deviation `root` in units of
/// 2^-20 gram and a gap of `g` * 2^h in units of 2^-20 standard deviation.
pub fn half_width(root: i128, g: u64, h: u32) -> i128
    requires root_from { pos 0 ≤ℤ root }
    requires root_to { root ≤ℤ pos (2 ^ 63) }
    requires most_g { g ≤ 2 ^ 63 }
    requires most_h { h ≤ 32 }
    ensures value { result ≡ half_width_of root g h }
    ensures ceiling { IsCeiling (root *ℤ pos (g * 2 ^ h)) (pos (2 ^ 40)) result }
    ensures nonneg { pos 0 ≤ℤ result }
    ensures width { result ≤ℤ pos (2 ^ 118) }
    ensures narrow { g < 2 ^ 63 → result <ℤ pos (2 ^ 118) }
{
    div_ceil(root * i128::from(g), 1 << (40 - h))
}
