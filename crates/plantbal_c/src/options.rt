// The options of a run, as C passes them.
ghost use Rattle.std.specs.Prelude.{◌≡◌, IfSome, IsNone};
ghost use Rattle.pb_study.specs.Options.{AreOptions};
ghost use Rattle.plantbal_c.specs.Asked.{IsAsked, IsNotAsked, usual_options};

use pb_limits::{DEFAULT_GAP, DEFAULT_SWEEPS, MOST_GAP, MOST_ROUNDS, MOST_SWEEPS};
use pb_report::Form;
use pb_study::Options;

/// The options of a run.
#[repr(C)]
#[derive(Clone, Copy)]
pub struct PlantbalOptions {
    /// The gap in thousandths of a standard deviation.
    pub gap: u32,
    /// The greatest number of sweeps.
    pub sweeps: u32,
    /// How many rounds of elimination; with any, tests are made.
    pub eliminate: u32,
    /// Not 0 if tests are made.
    pub tests: u32,
    /// 0 for CSV, 1 for JSON lines.
    pub form: u32,
}

/// The options and the form that are asked for, if they are within their limits.
pub(crate) fn asked(options: &PlantbalOptions) -> Option<(Options, Form)>
    ensures within { IfSome result (λ asked. AreOptions asked.0) }
    ensures asked { IfSome result (λ asked. IsAsked options.now asked.0 asked.1) }
    ensures none { IsNone result → IsNotAsked options.now }
{
    let form = match options.form {
        0 => Form::Csv,
        1 => Form::Json,
        _ => return None,
    };
    let within = 1 <= options.gap
        && options.gap <= MOST_GAP
        && options.sweeps <= MOST_SWEEPS
        && options.eliminate <= MOST_ROUNDS;
    if !within {
        return None;
    }
    let options = Options {
        gap: options.gap,
        sweeps: options.sweeps,
        tests: options.tests != 0 || options.eliminate != 0,
        eliminate: options.eliminate,
    };
    Some((options, form))
}

/// The options that a run has if its words ask for nothing else.
pub(crate) fn usual() -> Options
    ensures value { result ≡ usual_options }
    ensures within { AreOptions result }
{
    Options {
        gap: DEFAULT_GAP,
        sweeps: DEFAULT_SWEEPS,
        tests: false,
        eliminate: 0,
    }
}
