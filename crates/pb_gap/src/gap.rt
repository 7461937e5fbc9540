// A gap: its two numbers, its size, and whether it is met.

ghost use Rattle.std.specs.Prelude.{◌≡◌, ◌↔◌, ◌*◌, ◌/◌, ◌^◌, ◌<◌, ◌≤◌, pos, length, All, IsTrue};
ghost use Rattle.pb_limits.specs.Limits.{most_streams};
ghost use Rattle.pb_fixed.specs.Blocks.{IsBlockItem};
ghost use Rattle.pb_gap.specs.Gap.{MeetsGap, gap_from, gap_size};
ghost use Rattle.pb_gap.specs.GapRange.{IsGapInRange};

use pb_fixed::{block_exponent, block_squares, root_ceil};

/// A gap of `g` blocks of 2^h, in units of 2^-20 standard deviation.
#[derive(Clone, Copy, Debug)]
pub struct Gap {
    pub g: u64,
    pub h: u32,
}

/// The gap of a list of deviations.
pub fn gap_from(deviations: &[i128]) -> Gap
    requires few { length deviations.now ≤ most_streams }
    requires each { All IsBlockItem deviations.now }
    ensures value { result ≡ gap_from deviations.now }
    ensures range { IsGapInRange result }
    ensures within { result.g < 2 ^ 63 }
{
    let h = block_exponent(deviations);
    let g = root_ceil(block_squares(deviations, h) as u128);
    Gap { g, h }
}

/// The size of a gap, in units of 2^-20 standard deviation.
pub fn size(gap: Gap) -> u128
    requires { IsGapInRange gap }
    ensures value { result ≡ gap_size gap }
    ensures within { result ≤ 2 ^ 95 }
{
    u128::from(gap.g) << gap.h
}

/// Whether a gap is met at this many thousandths of a standard deviation.
pub fn is_met(gap: Gap, thousandths: u32) -> bool
    requires { IsGapInRange gap }
    ensures { IsTrue result ↔ MeetsGap thousandths gap }
{
    size(gap) * 1_000 <= u128::from(thousandths) << 20
}

/// The greatest deviation of a gap that is met at this many thousandths of a standard deviation.
pub fn most_deviation(thousandths: u32) -> i128
    ensures { result ≡ pos (thousandths * 2 ^ 20 / 1000) }
{
    (i128::from(thousandths) << 20) / 1_000
}
