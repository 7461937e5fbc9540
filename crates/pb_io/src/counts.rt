// Counts in a u64 that stay at its greatest value, and calls by their number.
ghost use Rattle.std.specs.Prelude.{◌≡◌, ◌-◌, ◌↔◌, min, IsTrue, Contains};
ghost use Rattle.pb_io.specs.Counts.{counted};

// A count after some more.
pub fn saturating_count(count: u64, more: u64) -> u64
    ensures { result ≡ counted count more }
{
    count.saturating_add(more)
}

// 1 for a call that moved no byte, and 0 for one that moved some.
pub fn idle_calls(moved: usize) -> u64
    ensures { result ≡ 1 - moved }
{
    if moved == 0 { 1 } else { 0 }
}

// 1 for a call that comes after some faults, and 0 for one that comes before any.
pub fn calls_after(faults: u64) -> u64
    ensures { result ≡ min 1 faults }
{
    faults.min(1)
}

// Whether a list of the numbers of calls names this one.
pub fn is_named(fails: &[u32], call: u64) -> bool
    ensures { IsTrue result ↔ Contains fails.now call }
{
    fails.iter().any(|number| u64::from(*number) == call)
}
