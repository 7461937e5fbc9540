// What a flow carries of a component.

ghost use Rattle.std.specs.Prelude.{◌≡◌, ◌≤◌, ◌^◌, ◌*ℤ◌, ◌≤ℤ◌, pos, unsigned_abs, true, false, IfNone, IfSome};
ghost use Rattle.pb_limits.specs.Limits.{most_value};
ghost use Rattle.pb_graph.specs.ProcessGraph.{IsMeasurement};
ghost use Rattle.pb_facts.specs.Grade.{IsGrade};
ghost use Rattle.pb_grades.specs.Grade.{carried, carried_grams, carried_variance, carries_too_much};

use pb_facts::Grade;
use pb_fixed::{div_ceil, div_floor};
use pb_graph::Meas;
use pb_limits::{MOST_VALUE, MOST_VARIANCE};

// Parts per million in the whole, and the square of that.
const WHOLE: i128 = 1_000_000;

const SQUARED_WHOLE: i128 = 1_000_000_000_000;

// A flow times its grade: at most 10^21 either way.
fn scaled(flow: i128, grade: Grade) -> i128
    requires flow { unsigned_abs flow ≤ most_value }
    requires grade { IsGrade grade }
    ensures value { result ≡ flow *ℤ grade.ppm }
    ensures within { unsigned_abs result ≤ 10 ^ 21 }
{
    flow * i128::from(grade.ppm)
}

// The square of a flow: at most 10^30.
fn squared(flow: i128) -> i128
    requires { unsigned_abs flow ≤ most_value }
    ensures value { result ≡ flow *ℤ flow }
    ensures least { pos 0 ≤ℤ result }
    ensures within { unsigned_abs result ≤ 10 ^ 30 }
{
    flow * flow
}

// The square of a flow times the variance of its grade: at most 10^38.
fn weighted(flow: i128, grade: Grade) -> i128
    requires flow { unsigned_abs flow ≤ most_value }
    requires grade { IsGrade grade }
    ensures value { result ≡ (flow *ℤ flow) *ℤ grade.variance }
    ensures least { pos 0 ≤ℤ result }
    ensures within { unsigned_abs result ≤ 10 ^ 38 }
{
    squared(flow) * i128::from(grade.variance)
}

// The grams that a flow carries.
fn grams_by(flow: i128, grade: Grade) -> i128
    requires flow { unsigned_abs flow ≤ most_value }
    requires grade { IsGrade grade }
    ensures value { result ≡ carried_grams flow grade }
    ensures within { unsigned_abs result ≤ most_value }
{
    div_floor(scaled(flow, grade), WHOLE)
}

// The variance of these grams.
fn variance_by(flow: i128, grade: Grade) -> i128
    requires flow { unsigned_abs flow ≤ most_value }
    requires grade { IsGrade grade }
    ensures value { result ≡ carried_variance flow grade }
    ensures least { pos 1 ≤ℤ result }
{
    div_ceil(weighted(flow, grade), SQUARED_WHOLE) + 1
}

// What a flow carries, if it isn't above the limit of a value.
fn measured(flow: i128, grade: Grade) -> Meas
    requires flow { unsigned_abs flow ≤ most_value }
    requires grade { IsGrade grade }
    ensures value { result ≡ carried flow grade }
    ensures grams { unsigned_abs result.value ≤ most_value }
    ensures least { pos 1 ≤ℤ result.variance }
{
    Meas {
        value: grams_by(flow, grade),
        variance: variance_by(flow, grade),
    }
}

/// What a flow carries of a component by its grade, in grams, as a measurement; `None` exactly when the flow is above the limit of a value
/// (which is tested first, so that its square stays within 128 bits) or the variance is above the limit of a variance.
pub fn carried_by(flow: i128, grade: Grade) -> Option<Meas>
    requires { IsGrade grade }
    ensures value { IfSome result (λ meas. meas ≡ carried flow grade) }
    ensures within { IfSome result (λ _. carries_too_much flow grade ≡ false) }
    ensures limits { IfSome result IsMeasurement }
    ensures over { IfNone result (carries_too_much flow grade ≡ true) }
{
    if flow.unsigned_abs() > MOST_VALUE {
        return None;
    }
    let meas = measured(flow, grade);
    if meas.variance > MOST_VARIANCE {
        return None;
    }
    Some(meas)
}
