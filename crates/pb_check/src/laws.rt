// What is proved of the definitions alone. The contract of each function is a law; it calls the laws that its proof uses.

ghost use Rattle.pb_check.specs.Laws.{RightLaw, SoundLaw, SolvedLaw};

use pb_gap::{gap_law, one_state_law};

/// A stage that passes is certified, wherever it came from, and its state is converged exactly when its gap is met.
pub fn sound_law()
    ensures { SoundLaw }
{}

/// A stage that is shown passes at a gap and sweeps if its prices, flows and sweeps are the solution of its graph for these.
pub fn solved_law()
    ensures { SolvedLaw }
{
    gap_law();
    one_state_law();
}

/// A stage passes exactly when it is shown, which its printed numbers alone decide, and its state is what its printed gap says.
pub fn right_law()
    ensures { RightLaw }
{
    gap_law();
    sound_law();
}
