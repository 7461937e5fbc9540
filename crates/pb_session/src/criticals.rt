// The critical values of the declared plant.

ghost use Rattle.std.specs.Prelude.{◌≡◌, filter_map, IfOk};
ghost use Rattle.pb_study.specs.Criticals.{AreCritical};
ghost use Rattle.pb_session.specs.Criticals.{critical_row, declared_critical};

use pb_graph::List;
use pb_site::{Declared, Site};
use pb_study::{Critical, CriticalRow};
use std::alloc::{AllocError, Global};

// The critical value of the global test that a declaration declares.
fn critical_row(declared: &Declared) -> Option<CriticalRow>
    ensures { result ≡ critical_row declared.now }
{
    match declared {
        Declared::CritGlobal { dof, value } => Some(CriticalRow {
            dof: *dof,
            value: *value,
        }),
        _ => None,
    }
}

// The critical values of the global test, in order of declaration.
fn critical_rows(alloc: Global, declared: &[Declared]) -> Result<List<CriticalRow>, AllocError>
    ensures { IfOk result (λ rows. rows ≡ filter_map critical_row declared.now) }
{
    let mut rows = List::new(alloc);
    for row in declared {
        if let Some(value) = critical_row(row) {
            rows.push(value)?;
        }
    }
    Ok(rows)
}

/// The critical values of the declared plant, in thousandths.
pub fn declared_critical(alloc: Global, site: &Site) -> Result<Critical, AllocError>
    ensures value { IfOk result (λ critical. critical ≡ declared_critical site.now) }
    ensures limits { IfOk result AreCritical }
{
    let global = critical_rows(alloc, site.declared())?;
    let nodal = site.nodal();
    let measure = site.measure();
    Ok(Critical {
        global,
        nodal,
        measure,
    })
}
