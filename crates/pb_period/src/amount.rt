// Amounts of mass, and the measurements that they make.

ghost use Rattle.std.specs.Prelude.{◌≡◌, ◌≤ℤ◌, pos};
ghost use Rattle.pb_limits.specs.Ranges.{IsBaseVariance};
ghost use Rattle.pb_period.specs.Amounts.{IsSmall, sum_of_two};
ghost use Rattle.pb_period.specs.Facts.{no_amount};
ghost use Rattle.pb_period.specs.Measurement.{measurement};

use pb_graph::Meas;

/// An amount of mass in grams, with its variance in squared grams.
#[derive(Clone, Copy)]
pub struct Amount {
    pub grams: i128,
    pub variance: i128,
}

impl Amount {
    /// No mass.
    pub fn zero() -> Amount
        ensures { result ≡ no_amount }
    {
        Amount {
            grams: 0,
            variance: 0,
        }
    }

    /// The sum of two amounts.
    pub fn plus(self, other: Amount) -> Amount
        requires small { IsSmall self }
        requires other { IsSmall other }
        ensures { result ≡ sum_of_two self other }
    {
        Amount {
            grams: self.grams + other.grams,
            variance: self.variance + other.variance,
        }
    }

    /// The measurement of this amount: its grams, and the sum of the base variance and its own.
    pub fn measured(self, base: i128) -> Meas
        requires small { IsSmall self }
        requires base { IsBaseVariance base }
        ensures value { result ≡ measurement base self }
        ensures least { pos 1 ≤ℤ result.variance }
    {
        Meas {
            value: self.grams,
            variance: base + self.variance,
        }
    }
}
