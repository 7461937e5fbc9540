// Critical values as C hands them over.
ghost use Rattle.std.specs.Prelude.{◌≡◌, ◌↔◌, IfOk, IfSome, IsNone, IsTrue, All};
ghost use Rattle.pb_limits.specs.Ranges.{IsCriticalValue};
ghost use Rattle.pb_study.specs.Criticals.{AreCritical, IsCriticalRow};
ghost use Rattle.pb_arrays.specs.GivenCritical.{given_critical, given_row, given_rows, given_value};

use crate::asked::PlantbalStudyOptions;
use pb_graph::List;
use pb_limits::MOST_CRITICAL;
use pb_study::{Critical, CriticalRow};
use std::alloc::{AllocError, Global};

/// The critical value of the global test for some degrees of freedom, in thousandths.
#[repr(C)]
#[derive(Clone, Copy)]
pub struct PlantbalCriticalRow {
    /// The degrees of freedom.
    pub dof: u32,
    /// The value, at most 10^12.
    pub value: i64,
}

/// The critical values that are handed over, if each is within its limits.
pub fn critical_of(
    alloc: Global,
    given: &PlantbalStudyOptions,
    rows: &[PlantbalCriticalRow],
) -> Result<Option<Critical>, AllocError>
    ensures value { IfOk result (λ critical. IfSome critical
        (λ critical. critical ≡ given_critical given.now rows.now)) }
    ensures limits { IfOk result (λ critical. IfSome critical AreCritical) }
    ensures none { IfOk result (λ critical.
        IsNone critical → AreCritical (given_critical given.now rows.now) → ⊥) }
{
    let nodal = value_if(given.has_nodal, given.nodal);
    let measure = value_if(given.has_measure, given.measure);
    let global = rows_of(alloc, rows)?;
    if !are_rows(global.as_slice()) || !is_value_if(nodal) || !is_value_if(measure) {
        return Ok(None);
    }
    Ok(Some(Critical {
        global,
        nodal,
        measure,
    }))
}

// The value, if there is one.
fn value_if(there: bool, value: i64) -> Option<i64>
    ensures { result ≡ given_value there value }
{
    if there { Some(value) } else { None }
}

// Whether a value is within the limits, if there is one.
fn is_value_if(value: Option<i64>) -> bool
    ensures { IsTrue result ↔ IfSome value IsCriticalValue }
{
    match value {
        Some(value) => is_value(value),
        None => true,
    }
}

// Whether a value is within the limits.
fn is_value(value: i64) -> bool
    ensures { IsTrue result ↔ IsCriticalValue value }
{
    0 <= value && value <= MOST_CRITICAL
}

// Whether the values of the global test are within the limits.
fn are_rows(rows: &[CriticalRow]) -> bool
    ensures { IsTrue result ↔ All IsCriticalRow rows.now }
{
    rows.iter().all(|row| is_value(row.value))
}

// The values of the global test.
fn rows_of(alloc: Global, rows: &[PlantbalCriticalRow]) -> Result<List<CriticalRow>, AllocError>
    ensures { IfOk result (λ list. list ≡ given_rows rows.now) }
{
    let mut list = List::new(alloc);
    for row in rows {
        list.push(row_of(row))?;
    }
    Ok(list)
}

// A value of the global test.
fn row_of(row: &PlantbalCriticalRow) -> CriticalRow
    ensures { result ≡ given_row row.now }
{
    CriticalRow {
        dof: row.dof,
        value: row.value,
    }
}
