// What is proved of the options of a run. The functions are empty: the contract of each is a law.

ghost use Rattle.pb_laws.specs.Options.{FirstRoundLaw, OtherRowsLaw, UntestedLaw};

use pb_elim::one_study_law;

/// The law that an elimination changes nothing of the first round: a study without it has the first stage of the study with it.
pub fn first_round_law()
    ensures { FirstRoundLaw }
{
    one_study_law();
}

/// The law that tests add their rows to a report and change no other row.
pub fn untested_law()
    ensures stages { UntestedLaw }
    ensures rows { OtherRowsLaw }
{
    one_study_law();
}
