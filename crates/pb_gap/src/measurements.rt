// The standard deviation of each stream.

ghost use Rattle.std.specs.Prelude.{◌≡◌, All, IfOk};
ghost use Rattle.pb_graph.specs.ProcessGraph.{IsWithinLimits};
ghost use Rattle.pb_gap.specs.Gap.{standard_deviation_of, standard_deviations_of};

use pb_fixed::scaled_root;
use pb_graph::Stream;
use std::alloc::{AllocError, Global};

// The standard deviation of a stream in units of 2^-20 gram, rounded down; 0 if it is unmeasured.
fn standard_deviation(stream: &Stream) -> i128
    requires { IsWithinLimits stream.now }
    ensures { result ≡ standard_deviation_of stream.now.meas }
{
    match stream.meas {
        None => 0,
        Some(m) => scaled_root(m.variance),
    }
}

/// The standard deviation of each stream in units of 2^-20 gram, rounded down; 0 if it is
/// unmeasured.
pub fn standard_deviations(alloc: Global, streams: &[Stream]) -> Result<Vec<i128>, AllocError>
    requires { All IsWithinLimits streams.now }
    ensures { IfOk result (λ v. v.items ≡ standard_deviations_of streams.now) }
{
    let mut deviations = Vec::new(alloc);
    for stream in streams {
        deviations.push(standard_deviation(stream))?;
    }
    Ok(deviations)
}
