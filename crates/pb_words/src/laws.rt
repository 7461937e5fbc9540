// Words give at most one command, and `clap` takes them as they are meant.

ghost use Rattle.pb_words.specs.Laws.{ClapLaw, OneCommandLaw};

/// The law that words give at most one command, so that what they ask for is determined.
pub fn one_command_law()
    ensures { OneCommandLaw }
{}

/// The law that `clap` accepts words of known forms iff they are those of a line of parts, and returns what the parts give.
pub fn clap_law()
    ensures { ClapLaw }
{}
