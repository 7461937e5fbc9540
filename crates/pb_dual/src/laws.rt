// What is proved of the definitions alone. The functions are empty: the contract of each is a law.

ghost use Rattle.pb_dual.specs.Moves.{MoveLaw};
ghost use Rattle.pb_dual.specs.Laws.{CandidateLaw, BestLaw, AscentLaw, IdleLaw};

/// Moving the price of a group by `t` changes the dual value by `-t * (2 * N + A * t)`, where `N` is the net dual flow of the
/// group and `A` its variance.
pub fn move_law()
    ensures { MoveLaw }
{}

/// The candidates for the price of a free group are exactly the numbers with which the prices fit.
pub fn candidate_law()
    ensures { CandidateLaw }
{}

/// The best price of a free group is the least candidate with the greatest dual value.
pub fn best_law()
    ensures { BestLaw }
{}

/// After any number of sweeps the prices fit, and one more sweep doesn't lower the dual value.
pub fn ascent_law()
    ensures { AscentLaw }
{}

/// If a sweep changes no price, no later one does.
pub fn idle_law()
    ensures { IdleLaw }
{}
