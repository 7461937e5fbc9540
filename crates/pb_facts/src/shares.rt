// The share of a total that falls on some of its days.

ghost use Rattle.std.specs.Prelude.{◌≡◌, ◌*◌, ◌≤◌, ◌≤ℤ◌, pos, unsigned_abs};
ghost use Rattle.pb_limits.specs.Limits.{most_days_of_transfer, most_row_variance};
ghost use Rattle.pb_facts.specs.Share.{share_of, up_to};

/// What falls on the days after the first `before` up to the first `until`, of a total spread evenly over `days` days: the total
/// up to `until`, rounded down, minus the total up to `before`, rounded down. So the shares of any division of the days add up to
/// the total, for negative totals too. No share is more than the total, and none has the opposite sign.
pub fn share(total: i128, days: u32, before: u32, until: u32) -> i128
    requires some_days { 1 ≤ days }
    requires few_days { days ≤ most_days_of_transfer }
    requires order { before ≤ until }
    requires within { until ≤ days }
    requires total { unsigned_abs total ≤ most_row_variance }
    ensures value { result ≡ share_of total days before until }
    ensures whole { before ≡ 0 → until ≡ days → result ≡ total }
    ensures not_negative { pos 0 ≤ℤ total → pos 0 ≤ℤ result }
    ensures no_more { unsigned_abs result ≤ unsigned_abs total }
{
    up_to(total, days, until) - up_to(total, days, before)
}

// The part of the total that falls on the first days, rounded down.
fn up_to(total: i128, days: u32, first: u32) -> i128
    requires some_days { 1 ≤ days }
    requires few_days { days ≤ most_days_of_transfer }
    requires within { first ≤ days }
    requires total { unsigned_abs total ≤ most_row_variance }
    ensures value { result ≡ up_to total days first }
    ensures within { unsigned_abs result ≤ most_days_of_transfer * most_row_variance }
{
    (total * i128::from(first)).div_euclid(i128::from(days))
}
