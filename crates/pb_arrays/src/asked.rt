// What is asked of a study.
ghost use Rattle.std.specs.Prelude.{◌≡◌, IfSome, IsNone};
ghost use Rattle.pb_study.specs.Options.{AreOptions};
ghost use Rattle.pb_arrays.specs.GivenOptions.{given_options};

use pb_limits::{MOST_GAP, MOST_ROUNDS, MOST_SWEEPS};
use pb_study::Options;

/// What is asked of a study, with the critical values of the tests of nodes and of measurements.
#[repr(C)]
#[derive(Clone, Copy)]
pub struct PlantbalStudyOptions {
    /// The gap in thousandths of a standard deviation.
    pub gap: u32,
    /// The greatest number of sweeps.
    pub sweeps: u32,
    /// How many rounds of elimination; with any, tests are made.
    pub eliminate: u32,
    /// Whether tests are made.
    pub tests: bool,
    /// Whether there is a critical value for the tests of nodes.
    pub has_nodal: bool,
    /// Whether there is one for the tests of measurements.
    pub has_measure: bool,
    /// The critical value for the tests of nodes in thousandths, at most 10^12.
    pub nodal: i64,
    /// The critical value for the tests of measurements in thousandths, at most 10^12.
    pub measure: i64,
}

/// The options, if they are within their limits.
pub fn options_of(given: &PlantbalStudyOptions) -> Option<Options>
    ensures value { IfSome result (λ options. options ≡ given_options given.now) }
    ensures limits { IfSome result AreOptions }
    ensures none { IsNone result → AreOptions (given_options given.now) → ⊥ }
{
    let within = 1 <= given.gap
        && given.gap <= MOST_GAP
        && given.sweeps <= MOST_SWEEPS
        && given.eliminate <= MOST_ROUNDS;
    if !within {
        return None;
    }
    Some(Options {
        gap: given.gap,
        sweeps: given.sweeps,
        tests: given.tests || given.eliminate != 0,
        eliminate: given.eliminate,
    })
}
