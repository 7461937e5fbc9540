// The classes of streams.

ghost use Rattle.std.specs.Prelude.{◌≡◌, IfOk};
ghost use Rattle.pb_session.specs.Keeping.{classes_in};

use pb_graph::{Classified, List};
use pb_study::StreamResult;
use std::alloc::{AllocError, Global};

/// The classes in the results of streams, with their certificates.
pub fn classes_in(alloc: Global, results: &[StreamResult]) -> Result<List<Classified>, AllocError>
    ensures { IfOk result (λ classes. classes ≡ classes_in results.now) }
{
    let mut classes = List::new(alloc);
    for result in results {
        classes.push(result.classified.copy(alloc)?)?;
    }
    Ok(classes)
}
