// Verdicts by the ends of a statistic.

ghost use Rattle.std.specs.Prelude.{◌≡◌};
ghost use Rattle.pb_stage.specs.Verdicts.{critical_for, global_test_of, global_verdict, verdict_of};

use pb_study::{CriticalRow, GlobalTest, Verdict};

/// The verdict on a statistic between two ends, in thousandths.
pub fn verdict(low: i128, high: Option<i128>, critical: Option<i64>) -> Verdict
    ensures { result ≡ verdict_of low high critical }
{
    let Some(critical) = critical else {
        return Verdict::NoCritical;
    };
    if low > critical as i128 {
        return Verdict::Reject;
    }
    match high {
        Some(high) if high <= critical as i128 => Verdict::Accept,
        _ => Verdict::Undecided,
    }
}

/// The verdict of the global test, of a statistic between two ends in thousandths.
///
/// Without degrees of freedom there is nothing to test, whatever the critical value.
pub fn global(low: i128, high: Option<i128>, dof: u32, critical: Option<i64>) -> Verdict
    ensures { result ≡ global_verdict low high dof critical }
{
    if dof == 0 {
        return Verdict::NoTest;
    }
    verdict(low, high, critical)
}

// The critical value of the first row for this many degrees of freedom.
fn critical_for(dof: u32, rows: &[CriticalRow]) -> Option<i64>
    ensures { result ≡ critical_for dof rows.now }
{
    for row in rows {
        if row.dof == dof {
            return Some(row.value);
        }
    }
    None
}

/// The global test with its critical value, that of the row for this many degrees of freedom.
pub fn global_test(rows: &[CriticalRow], low: i128, high: Option<i128>, dof: u32) -> GlobalTest
    ensures { result ≡ global_test_of rows.now low high dof }
{
    let critical = if dof == 0 {
        None
    } else {
        critical_for(dof, rows)
    };
    GlobalTest {
        critical,
        verdict: global(low, high, dof, critical),
    }
}
