// The words of the arguments that the system gives a program.
ghost use Rattle.std.specs.Prelude.{◌≡◌, ◌⊎◌, IfOk, IfErr, Err, drop};
ghost use Rattle.std.specs.Vec.Iter.{into_iter_items};
ghost use Rattle.pb_words.specs.declared.command.WordsRefused.TheVariants.{NoMemory};
ghost use Rattle.pb_words.specs.Args.{refused_by, words_given};

use crate::command::WordsRefused;
use crate::words::Words;
use std::alloc::{AllocError, Global};
use std::env::Args;
use std::io;

/// The words of the system's arguments: all after the first, which is the program's name, in order. If the system doesn't give the
/// arguments, the refusal is that of its error; see [`refused_args`].
pub fn words_of(alloc: Global, args: io::Result<Args>) -> Result<Words, WordsRefused>
    ensures ok { IfOk result (λ words. words_given args ≡ Ok words) }
    ensures refused { IfErr (words_given args) (λ why. result ≡ Err why) }
    ensures memory { IfErr result (λ why. (words_given args ≡ Err why) ⊎ (why ≡ NoMemory)) }
{
    match args {
        Ok(args) => match after_name(alloc, args) {
            Ok(words) => Ok(Words::from_vec(alloc, words)),
            Err(_) => Err(WordsRefused::NoMemory),
        },
        Err(error) => Err(refused_args(error.kind())),
    }
}

/// Why there are no words if the system doesn't give the arguments: `NoMemory` iff it ran out of memory, and otherwise `Usage`, as
/// for an argument that isn't text.
pub fn refused_args(kind: io::ErrorKind) -> WordsRefused
    ensures { result ≡ refused_by kind }
{
    match kind {
        io::ErrorKind::OutOfMemory => WordsRefused::NoMemory,
        _ => WordsRefused::Usage,
    }
}

// The arguments after the program's name.
fn after_name(alloc: Global, args: Args) -> Result<Vec<String>, AllocError>
    ensures { IfOk result (λ words. words.items ≡ drop 1 (into_iter_items args)) }
{
    args.skip(1).collect(alloc)
}
