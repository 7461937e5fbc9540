// Quotients rounded down, up and to the nearest.

ghost use Rattle.std.specs.Prelude.{◌≡◌, ◌^◌, ◌<◌, ◌≤◌, pos, ◌≤ℤ◌, ◌<ℤ◌, unsigned_abs};
ghost use Rattle.pb_fixed.specs.Quotients.{IsFloor, IsCeiling, IsNearest, floor_div, ceil_div, nearest_div};

/// `n / d`, rounded down.
pub fn div_floor(n: i128, d: i128) -> i128
    requires { pos 0 <ℤ d }
    ensures value { result ≡ floor_div n d }
    ensures floor { IsFloor n d result }
    ensures size { unsigned_abs result ≤ unsigned_abs n }
{
    n.div_euclid(d)
}

/// `n / d`, rounded up.
pub fn div_ceil(n: i128, d: i128) -> i128
    requires { pos 0 <ℤ d }
    ensures value { result ≡ ceil_div n d }
    ensures ceiling { IsCeiling n d result }
    ensures size { unsigned_abs result ≤ unsigned_abs n }
{
    let floor = n.div_euclid(d);
    if n.rem_euclid(d) == 0 {
        floor
    } else {
        floor + 1
    }
}

/// The greatest whole number not above `n / d + 1/2`: the nearest to `n / d`, or the upper of two that are equally near.
pub fn div_nearest(n: i128, d: i128) -> i128
    requires dividend { unsigned_abs n < 2 ^ 125 }
    requires positive { pos 0 <ℤ d }
    requires divisor { d <ℤ pos (2 ^ 125) }
    ensures value { result ≡ nearest_div n d }
    ensures nearest { IsNearest n d result }
    ensures size { unsigned_abs result ≤ unsigned_abs n }
{
    (2 * n + d).div_euclid(2 * d)
}

/// The greatest whole number not above `n / 2^bits + 1/2`: `div_nearest` by a power of two, from 2 on, with a sum and a shift.
pub fn shift_nearest(n: i128, bits: u32) -> i128
    requires dividend { unsigned_abs n < 2 ^ 125 }
    requires some { 0 < bits }
    requires bits { bits < 126 }
    ensures value { result ≡ nearest_div n (pos (2 ^ bits)) }
    ensures nearest { IsNearest n (pos (2 ^ bits)) result }
    ensures size { unsigned_abs result ≤ unsigned_abs n }
{
    (n + (1 << (bits - 1))) >> bits
}
