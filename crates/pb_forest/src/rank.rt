// The degrees of freedom.

ghost use Rattle.std.specs.Prelude.{◌≡◌, ◌^◌, ◌<◌, ◌≤◌, length};
ghost use Rattle.pb_forest.specs.Forest.{degrees_of_freedom};

use pb_graph::Stream;

/// The number of measured streams among those marked.
pub fn measured_held(streams: &[Stream], held: &[bool]) -> u32
    requires few { length streams.now < 2 ^ 32 }
    requires each { length held.now ≡ length streams.now }
    ensures value { result ≡ degrees_of_freedom streams.now held.now }
    ensures most { result ≤ length streams.now }
{
    let mut count = 0;
    for (j, stream) in streams.iter().enumerate() {
        count += u32::from(stream.meas.is_some() && held[j]);
    }
    count
}
