// The rule of elimination: after each stage, whether to stop and why, or which stream is taken.

ghost use Rattle.std.specs.Prelude.{◌≡◌, None};
ghost use Rattle.std.specs.List.{list_any};
ghost use Rattle.pb_elim.specs.Elimination.{stop_after, stop_of_measures};
ghost use Rattle.pb_elim.specs.Rounds.{is_suspect, next_at, stop_at, worse, worse_of, worst_from};

use pb_study::{Critical, MeasureTest, Options, Stop, Taken, Tests, Verdict};

// Whether a measurement is suspected by its test.
fn is_suspect(test: &MeasureTest) -> bool
    ensures { result ≡ is_suspect test.now }
{
    matches!(test.verdict, Verdict::Reject)
}

// Whether some measurement is suspected.
fn has_suspect(measures: &[MeasureTest]) -> bool
    ensures { result ≡ list_any is_suspect measures.now }
{
    for test in measures {
        if is_suspect(test) {
            return true;
        }
    }
    false
}

// Why the elimination stops after a rejected stage while rounds are left; `None` if there is a suspect.
fn stop_of_measures(critical: Option<i64>, measures: &[MeasureTest]) -> Option<Stop>
    ensures { result ≡ stop_of_measures critical measures.now }
{
    match critical {
        None => Some(Stop::NoCritical),
        Some(_) => {
            if has_suspect(measures) {
                None
            } else {
                Some(Stop::NoSuspect)
            }
        }
    }
}

// Why the elimination stops after a stage with these tests, for which this many streams were taken; `None` if one more is taken.
fn stop_after(options: &Options, critical: &Critical, taken: u32, tests: &Tests) -> Option<Stop>
    ensures { result ≡ stop_after options.now critical.now taken tests.now }
{
    match tests.global.verdict {
        Verdict::Accept => Some(Stop::Accepted),
        Verdict::Undecided => Some(Stop::Undecided),
        Verdict::NoCritical => Some(Stop::NoCritical),
        Verdict::NoTest => Some(Stop::NoTest),
        Verdict::Reject => {
            if taken == options.eliminate {
                Some(Stop::Spent)
            } else {
                stop_of_measures(critical.measure, tests.measure.as_slice())
            }
        }
    }
}

// The worst suspect so far, or one more if its drop has a greater low end.
fn worse_of(worst: Option<Taken>, taken: Taken) -> Taken
    ensures { result ≡ worse_of worst taken }
{
    match worst {
        None => taken,
        Some(worst) => { if worst.low < taken.low { taken } else { worst } }
    }
}

// The worst suspect after one more test.
fn worse(worst: Option<Taken>, test: &MeasureTest) -> Option<Taken>
    ensures { result ≡ worse worst test.now }
{
    if !is_suspect(test) {
        return worst;
    }
    let taken = Taken {
        stream: test.stream,
        low: test.low,
    };
    Some(worse_of(worst, taken))
}

// The suspect with the greatest low end of its drop, or the earliest of several; `None` if there is no suspect.
fn suspect(measures: &[MeasureTest]) -> Option<Taken>
    ensures { result ≡ worst_from None measures.now }
{
    let mut worst = None;
    for test in measures {
        worst = worse(worst, test);
    }
    worst
}

/// The stream that is taken after a stage with these tests, for which this many were taken; `None` if the rule says to stop, or if
/// there are no tests.
pub fn next_at(
    options: &Options,
    critical: &Critical,
    taken: u32,
    tests: &Option<Tests>,
) -> Option<Taken>
    ensures { result ≡ next_at options.now critical.now taken tests.now }
{
    let Some(tests) = tests else {
        return None;
    };
    if stop_after(options, critical, taken, tests).is_some() {
        return None;
    }
    suspect(tests.measure.as_slice())
}

/// Why the elimination stops after its last stage with these tests, for which this many streams were taken; `None` if no elimination
/// is asked for.
pub fn stop_at(
    options: &Options,
    critical: &Critical,
    taken: u32,
    tests: &Option<Tests>,
) -> Option<Stop>
    ensures { result ≡ stop_at options.now critical.now taken tests.now }
{
    if options.eliminate == 0 {
        return None;
    }
    match tests {
        None => None,
        Some(tests) => stop_after(options, critical, taken, tests),
    }
}
