// Square roots rounded down and up.

ghost use Rattle.std.specs.Prelude.{◌≡◌, ℕ, ◌*◌, ◌+◌, ◌-◌, ◌^◌, ◌<◌, ◌≤◌, pos, ◌≤ℤ◌, ◌<ℤ◌};
ghost use Rattle.pb_fixed.specs.Roots.{IsRootFloor, IsRootCeiling, IsScaledRoot, root_floor_of, root_ceil_of, scaled_root_of};

/// The greatest number whose square is at most `n`.
pub fn root_floor(n: u128) -> u64
    ensures value { result ≡ root_floor_of n }
    ensures floor { IsRootFloor n result }
{
    n.isqrt() as u64
}

/// The least number whose square is at least `n`, at most 2^63.
pub fn root_ceil(n: u128) -> u64
    requires { n ≤ 2 ^ 126 }
    ensures value { result ≡ root_ceil_of n }
    ensures ceiling { IsRootCeiling n result }
    ensures width { result ≤ 2 ^ 63 }
    ensures narrow { n ≤ (2 ^ 63 - 1) * (2 ^ 63 - 1) → result < 2 ^ 63 }
{
    let floor = root_floor(n);
    if u128::from(floor) * u128::from(floor) == n {
        floor
    } else {
        floor + 1
    }
}

/// The square root of `v` in units of 2^-20, rounded down: the root of a variance in squared grams, in units of 2^-20 grams.
pub fn scaled_root(v: i128) -> i128
    requires least { pos 0 ≤ℤ v }
    requires most { v ≤ℤ pos (2 ^ 86) }
    ensures value { result ≡ scaled_root_of v }
    ensures root { IsScaledRoot v result }
    ensures width { v <ℤ pos (2 ^ 86) → result <ℤ pos (2 ^ 63) }
    ensures unit { pos 1 ≤ℤ v → pos (2 ^ 20) ≤ℤ result }
{
    i128::from(root_floor((v as u128) << 40))
}
