// What is proved of verdicts. The contract of each function is a law.

ghost use Rattle.pb_check.specs.VerdictLaws.{SomeVerdictLaw, NotBothLaw, OneFaultLaw, PlaceLaw};

/// Each well-formed stage of a process graph passes or has a first fault.
pub fn some_verdict_law()
    ensures { SomeVerdictLaw }
{}

/// No stage passes and has a first fault, and no stage has two; so a stage has one verdict.
pub fn one_verdict_law()
    ensures not_both { NotBothLaw }
    ensures one { OneFaultLaw }
{}

/// The place of a fault is one of the stage.
pub fn place_law()
    ensures { PlaceLaw }
{}
