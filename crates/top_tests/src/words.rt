// What no clause says: that words are read with ample memory.

use crate::inputs::words_from;
use pb_report::Form;
use pb_study::Options;
use pb_words::*;
use std::alloc::{AllocError, Global};
use std::io;

const USUAL: Options = Options {
    gap: 10,
    sweeps: 5_000,
    tests: false,
    eliminate: 0,
};

// What the words give.
fn read(alloc: Global, words: &[&str]) -> Result<Result<Command, WordsRefused>, AllocError> {
    let list = words_from(alloc, words)?;
    Ok(read_words(alloc, &list))
}

/// One list of words for each command, and words that are no command. More of both are tried on the built program.
#[test]
fn reads_commands(rt: HostRuntime) -> Result<(), AllocError> {
    let options = Options {
        gap: 4,
        sweeps: 3,
        tests: true,
        eliminate: 2,
    };
    let eliminating = Command::Run {
        options,
        form: Form::Csv,
    };
    let usual = Command::Run {
        options: USUAL,
        form: Form::Json,
    };
    let making = Command::Make {
        number: 4_294_967_295,
        streams: 3,
        summary: true,
        gap: 2,
        sweeps: 0,
    };
    let lists: [(&[&str], Result<Command, WordsRefused>); 5] = [
        (
            &[
                "--sweeps=3",
                "--eliminate",
                "2",
                "run",
                "--gap",
                "4",
                "--tests",
            ],
            Ok(eliminating),
        ),
        (&["run", "--format", "json"], Ok(usual)),
        (
            &[
                "--summary",
                "--number",
                "4294967295",
                "make",
                "--streams=3",
                "--gap=2",
                "--sweeps",
                "0",
            ],
            Ok(making),
        ),
        (&["check"], Ok(Command::Check)),
        (&["run", "--gap", "0"], Err(WordsRefused::Usage)),
    ];
    for (words, command) in lists {
        assert_eq!(rt; read(rt.alloc(), words)?, command, "at {words:?}");
    }
    Ok(())
}

// The words that are read if these are the system's arguments.
fn given(alloc: Global, args: &[&str]) -> Result<Result<Words, WordsRefused>, AllocError> {
    let mut list = Vec::new(alloc);
    for arg in args {
        list.push(String::from_str(alloc, arg)?)?;
    }
    Ok(words_of(alloc, Ok(list.into_iter())))
}

fn are_words(found: &Result<Words, WordsRefused>, wanted: &[&str]) -> bool {
    let Ok(words) = found else {
        return false;
    };
    for (i, word) in wanted.iter().enumerate() {
        if i >= words.len() || words.at(i) != *word {
            return false;
        }
    }
    words.len() == wanted.len()
}

/// The first argument is the program's name, whatever it is.
#[test]
fn takes_the_words_after_the_name(rt: HostRuntime) -> Result<(), AllocError> {
    let lists: [(&[&str], &[&str]); 4] = [
        (&[], &[]),
        (&["run"], &[]),
        (&["plantbal", "run"], &["run"]),
        (
            &["plantbal", "run", "", "--gap", "5"],
            &["run", "", "--gap", "5"],
        ),
    ];
    for (args, words) in lists {
        let found = given(rt.alloc(), args)?;
        assert!(rt; are_words(&found, words), "at {args:?}");
    }
    Ok(())
}

/// Arguments that the system doesn't give are no words; its error says whether memory ran out.
#[test]
fn refuses_arguments_that_are_not_given(rt: HostRuntime) {
    for (kind, refused) in [
        (io::ErrorKind::InvalidData, WordsRefused::Usage),
        (io::ErrorKind::Other, WordsRefused::Usage),
        (io::ErrorKind::OutOfMemory, WordsRefused::NoMemory),
    ] {
        let is_so = match words_of(rt.alloc(), Err(io::Error::from(kind))) {
            Ok(_) => false,
            Err(why) => why == refused,
        };
        assert!(rt; is_so && refused_args(kind) == refused, "at {refused:?}");
    }
}

#[test]
fn states_the_laws(_rt: HostRuntime) {
    one_command_law();
    clap_law();
}
