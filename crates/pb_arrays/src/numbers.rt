// Numbers of more than 64 bits.
ghost use Rattle.std.specs.Prelude.{◌≡◌};
ghost use Rattle.pb_arrays.specs.Wide.{wide_value};

/// A whole number of up to 128 bits: `high` times 2 to the power of 64, plus `low`.
#[repr(C)]
#[derive(Clone, Copy)]
pub struct PlantbalWide {
    /// The low word.
    pub low: u64,
    /// The high word, with the sign.
    pub high: i64,
}

/// A number in two words.
pub fn wide_of(value: i128) -> PlantbalWide
    ensures { wide_value result ≡ value }
{
    PlantbalWide {
        low: value.rem_euclid(1 << 64) as u64,
        high: value.div_euclid(1 << 64) as i64,
    }
}

/// The number that two words say.
pub fn whole_of(wide: &PlantbalWide) -> i128
    ensures { result ≡ wide_value wide.now }
{
    let high = wide.high as i128;
    let low = wide.low as i128;
    high * (1 << 64) + low
}
