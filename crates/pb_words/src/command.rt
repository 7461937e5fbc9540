// The commands, and the words that give each.
ghost use Rattle.std.specs.Prelude.{◌≡◌, ◌↔◌, ◌||◌, ◌≤ℤ◌, ℕ, pos, Bool, false, Err, IfOk, IfErr, IfSome, IsNone, IsTrue, Some, is_some, codes, string_bytes};
ghost use Rattle.std.specs.List.{All};
ghost use Rattle.pb_rows.specs.Number.{number, within};
ghost use Rattle.clap.specs.Matches.{found_of, first_value};
ghost use Rattle.pb_words.specs.Command.{Asks, AsksMake, AsksRun, IsCommandInRange, IsCommandOf, IsFormOf, number_or};
ghost use Rattle.pb_words.specs.Line.{are_plain_or_named, flag_in, is_plain_or_named, said_in};
ghost use Rattle.pb_words.specs.declared.command.Command.TheVariants.{Check};
ghost use Rattle.pb_words.specs.declared.command.WordsRefused.TheVariants.{Usage, NoMemory};

use crate::line::taken_apart;
use crate::words::Words;
use clap::ArgMatches;
use pb_limits::{
    DEFAULT_GAP, DEFAULT_NUMBER, DEFAULT_STREAMS, DEFAULT_SWEEPS, MOST_GAP, MOST_MADE_STREAMS,
    MOST_ROUNDS, MOST_SWEEPS,
};
use pb_report::Form;
use pb_rows::read_whole;
use pb_study::Options;
use std::alloc::Global;
use thiserror::Error;

/// What a command line asks for.
#[derive(Clone, Copy, Debug, PartialEq, Eq)]
pub enum Command {
    /// The run of a session, with the options of each study and the form of the output.
    Run {
        options: Options,
        form: Form,
    },
    /// The check of a report by the report's own numbers.
    Check,
    /// A session made from a number, with this many streams; or, with `summary`, a row on the first stage of its first report, with
    /// this gap, in thousandths of a standard deviation, and at most this many sweeps.
    Make {
        number: u32,
        streams: u32,
        summary: bool,
        gap: u32,
        sweeps: u32,
    },
}

/// Why words gave no command.
#[derive(Clone, Copy, Debug, PartialEq, Eq, Error)]
pub enum WordsRefused {
    /// The words give no command.
    #[error("the words give no command")]
    Usage,
    /// Memory ran out.
    #[error("no memory was found")]
    NoMemory,
}

// A made session has at least this many streams.
const LEAST_STREAMS: u32 = 3;

/// The command that words give: exactly one mode, `run`, `check` or `make`, and its options, each at most once and in any order, as
/// two words or as one with an equals sign. Returns `Usage` only if they give no command. A word that is one hyphen, two hyphens,
/// or one hyphen and a name is refused before any memory is allocated.
pub fn read_words(alloc: Global, words: &Words) -> Result<Command, WordsRefused>
    ensures ok { IfOk result (λ command. IsCommandOf words.now command) }
    ensures within { IfOk result IsCommandInRange }
    ensures usage { IfErr result (λ e. e ≡ Usage → (command : Command)
        → IsCommandOf words.now command → ⊥) }
    ensures malformed { are_plain_or_named words.now ≡ false → result ≡ Err Usage }
{
    if !are_plain_or_named(words.as_slice()) {
        return Err(WordsRefused::Usage);
    }
    match taken_apart(alloc, words) {
        Ok(matches) => match asked(&matches) {
            Some(command) => Ok(command),
            None => Err(WordsRefused::Usage),
        },
        Err(refused) => Err(refused),
    }
}

// Whether each word doesn't begin with a hyphen, or is two hyphens and a name.
fn are_plain_or_named(words: &[String]) -> bool
    ensures { IsTrue result ↔ All (λ w. IsTrue (is_plain_or_named (string_bytes w))) words.now }
{
    words
        .iter()
        .all(|word| is_plain_or_named(word.as_str().as_bytes()))
}

// Whether a word doesn't begin with a hyphen, or is two hyphens and a name.
fn is_plain_or_named(word: &[u8]) -> bool
    ensures { result ≡ is_plain_or_named word.now }
{
    match word {
        [b'-'] | [b'-', b'-'] => false,
        [b'-', second, ..] => *second == b'-',
        _ => true,
    }
}

// The command that the matches ask for.
fn asked(matches: &ArgMatches) -> Option<Command>
    ensures some { IfSome result (λ command.
        Asks (said_in (first_value (found_of matches.now))) command) }
    ensures none { IsNone result → (command : Command)
        → Asks (said_in (first_value (found_of matches.now))) command → ⊥ }
{
    match matches.get_str("mode") {
        Some("run") => run_asked(matches),
        Some("check") => check_asked(matches),
        Some("make") => make_asked(matches),
        _ => None,
    }
}

// The run that the matches ask for.
fn run_asked(matches: &ArgMatches) -> Option<Command>
    requires mode { first_value (found_of matches.now) (codes "mode") ≡ Some (codes "run") }
    ensures some { IfSome result (Asks (said_in (first_value (found_of matches.now)))) }
    ensures none { IsNone result → (options : Options) (form : Form)
        → AsksRun (said_in (first_value (found_of matches.now))) options form → ⊥ }
{
    if is_there(matches, "number") || is_there(matches, "streams") || is_set(matches, "summary") {
        return None;
    }
    let eliminate = number_or(matches, "eliminate", 1, MOST_ROUNDS, 0)?;
    let options = Options {
        gap: number_or(matches, "gap", 1, MOST_GAP, DEFAULT_GAP)?,
        sweeps: number_or(matches, "sweeps", 0, MOST_SWEEPS, DEFAULT_SWEEPS)?,
        tests: are_tests_asked(matches),
        eliminate,
    };
    let form = form_of(matches)?;
    Some(Command::Run { options, form })
}

// The check that the matches ask for; it takes no options.
fn check_asked(matches: &ArgMatches) -> Option<Command>
    requires mode { first_value (found_of matches.now) (codes "mode") ≡ Some (codes "check") }
    ensures some { IfSome result (Asks (said_in (first_value (found_of matches.now)))) }
    ensures none { IsNone result
        → Asks (said_in (first_value (found_of matches.now))) Check → ⊥ }
{
    if is_there(matches, "gap")
        || is_there(matches, "sweeps")
        || is_there(matches, "eliminate")
        || is_there(matches, "format")
        || is_there(matches, "number")
        || is_there(matches, "streams")
        || is_set(matches, "tests")
        || is_set(matches, "summary")
    {
        return None;
    }
    Some(Command::Check)
}

// The making of a session that the matches ask for.
fn make_asked(matches: &ArgMatches) -> Option<Command>
    requires mode { first_value (found_of matches.now) (codes "mode") ≡ Some (codes "make") }
    ensures some { IfSome result (Asks (said_in (first_value (found_of matches.now)))) }
    ensures none { IsNone result → (number streams : ℕ) (summary : Bool) (gap sweeps : ℕ)
        → AsksMake (said_in (first_value (found_of matches.now))) number streams summary
        gap sweeps → ⊥ }
{
    if is_there(matches, "eliminate") || is_there(matches, "format") || is_set(matches, "tests") {
        return None;
    }
    Some(Command::Make {
        number: number_or(matches, "number", 0, u32::MAX, DEFAULT_NUMBER)?,
        streams: number_or(
            matches,
            "streams",
            LEAST_STREAMS,
            MOST_MADE_STREAMS,
            DEFAULT_STREAMS,
        )?,
        summary: is_set(matches, "summary"),
        gap: number_or(matches, "gap", 1, MOST_GAP, DEFAULT_GAP)?,
        sweeps: number_or(matches, "sweeps", 0, MOST_SWEEPS, DEFAULT_SWEEPS)?,
    })
}

// Whether an option with a value was given.
fn is_there(matches: &ArgMatches, name: &str) -> bool
    ensures { result ≡ is_some (first_value (found_of matches.now) name.now) }
{
    matches.get_str(name).is_some()
}

// Whether a flag was given.
fn is_set(matches: &ArgMatches, name: &str) -> bool
    ensures { result ≡ is_some (flag_in (first_value (found_of matches.now) name.now)) }
{
    match matches.get_str(name) {
        Some(text) => text == "true",
        None => false,
    }
}

// Whether tests are asked for: by their flag, or with rounds of elimination.
fn are_tests_asked(matches: &ArgMatches) -> bool
    ensures { result ≡ (is_some (flag_in (first_value (found_of matches.now) (codes "tests")))
        || is_some (first_value (found_of matches.now) (codes "eliminate"))) }
{
    is_set(matches, "tests") || is_there(matches, "eliminate")
}

// The number that was given for an option, or the usual one; `None` iff the text that was given isn't a number in the range.
fn number_or(matches: &ArgMatches, name: &str, least: u32, most: u32, usual: u32) -> Option<u32>
    ensures { result ≡ number_or least most usual (first_value (found_of matches.now) name.now) }
{
    match matches.get_str(name) {
        None => Some(usual),
        Some(text) => {
            let value = whole_between(text, least, most)?;
            Some(value as u32)
        }
    }
}

// The whole number that a text writes, if it lies in the range.
fn whole_between(text: &str, least: u32, most: u32) -> Option<i128>
    ensures value { result ≡ within (pos least) (pos most) (number text.now) }
    ensures between { IfSome result (λ z. (pos 0 ≤ℤ z) × (z ≤ℤ pos most)) }
{
    read_whole(text.as_bytes(), i128::from(least), i128::from(most))
}

// The form that was given, or CSV; `None` iff a text was given that doesn't name a form.
fn form_of(matches: &ArgMatches) -> Option<Form>
    ensures some { IfSome result (IsFormOf (first_value (found_of matches.now) (codes "format"))) }
    ensures none { IsNone result → (form : Form)
        → IsFormOf (first_value (found_of matches.now) (codes "format")) form → ⊥ }
{
    match matches.get_str("format") {
        None | Some("csv") => Some(Form::Csv),
        Some("json") => Some(Form::Json),
        Some(_) => None,
    }
}
