// The call that `main` makes.
ghost use Rattle.std.specs.Prelude.{◌≡◌, ◌<◌, ◌≤◌, ◌++◌, ◌∷◌, [], OnOk, OnErr};
ghost use Rattle.std.specs.Process.{exit_status};
ghost use Rattle.pb_io.specs.Counts.{Rose};
ghost use Rattle.pb_io.specs.Sink.{Puts, PutsPrefix, StopsAtFault};
ghost use Rattle.pb_words.specs.Args.{words_given};
ghost use Rattle.pb_cli.specs.Status.{status_number};
ghost use Rattle.pb_cli.specs.declared.status.Status.{Status};
ghost use Rattle.pb_cli.specs.Program.{PutsUnlessFault, RunsGiven, error_line, line_feed};

use crate::runs::run;
use crate::status::Status;
use pb_io::{Sink, SinkFailed, Source, write_all};
use pb_words::words_of;
use std::alloc::Global;
use std::env::Args;
use std::io;
use std::process::ExitCode;

/// The program: it runs over the words of its arguments, as [`run`] does, exits with the number of the status, and writes the
/// status's name and a line feed to its third end, unless the run was a success. A failure of that end changes nothing else.
pub fn run_program<R: Source, W: Sink, E: Sink>(
    alloc: Global,
    args: io::Result<Args>,
    source: &mut R,
    sink: &mut W,
    errors: &mut E,
) -> ExitCode
    // For the status with which the run ended: the exit status is its number, all that `run` says holds for it, and what is put
    // into the third end is its line.
    ensures ended { (status : Status)
        × (exit_status result ≡ status_number status)
        × RunsGiven R.seen W.seen (words_given args) source.old source.new sink.old sink.new status
        × PutsUnlessFault (E.seen errors.old) (E.seen errors.new) (error_line status) }

    // The third end isn't used after a success, and no empty piece is put, nor any after a fault.
    ensures silent { exit_status result < 2 → errors.new ≡ errors.old }
    ensures errors_idle { (E.seen errors.new).idle ≡ (E.seen errors.old).idle }
    ensures errors_faults_stay { (E.seen errors.old).faults ≤ (E.seen errors.new).faults }
    ensures errors_stop { StopsAtFault (E.seen errors.old) (E.seen errors.new) }
{
    let status = run_args(alloc, args, source, sink);
    report(status, errors);
    ExitCode::from(status.number())
}

// Runs over the words of the arguments.
fn run_args<R: Source, W: Sink>(
    alloc: Global,
    args: io::Result<Args>,
    source: &mut R,
    sink: &mut W,
) -> Status
    ensures { RunsGiven R.seen W.seen (words_given args)
        source.old source.new sink.old sink.new result }
{
    match words_of(alloc, args) {
        Ok(words) => run(alloc, &words, source, sink),
        Err(refused) => Status::from(refused),
    }
}

// Writes the line of a status, if it has one. A failure to do so can't be reported.
fn report<E: Sink>(status: Status, errors: &mut E)
    ensures line { PutsUnlessFault (E.seen errors.old) (E.seen errors.new) (error_line status) }
    ensures silent { status_number status < 2 → errors.new ≡ errors.old }
    ensures idle { (E.seen errors.new).idle ≡ (E.seen errors.old).idle }
    ensures faults_stay { (E.seen errors.old).faults ≤ (E.seen errors.new).faults }
    ensures stops { StopsAtFault (E.seen errors.old) (E.seen errors.new) }
{
    if status.number() < 2 {
        return;
    }
    let _ = write_line(status.name(), errors);
}

// Writes a name and a line feed.
fn write_line<E: Sink>(name: &str, errors: &mut E) -> Result<(), SinkFailed>
    ensures whole { OnOk result
        (Puts (E.seen errors.old) (E.seen errors.new) (name.now ++ line_feed ∷ [])) }
    ensures prefix { OnErr result
        (PutsPrefix (E.seen errors.old) (E.seen errors.new) (name.now ++ line_feed ∷ [])) }
    ensures cause { OnErr result (Rose (E.seen errors.old).faults (E.seen errors.new).faults) }
    ensures idle { (E.seen errors.new).idle ≡ (E.seen errors.old).idle }
    ensures faults_stay { (E.seen errors.old).faults ≤ (E.seen errors.new).faults }
    ensures stops { StopsAtFault (E.seen errors.old) (E.seen errors.new) }
{
    write_all(errors, name.as_bytes())?;
    write_all(errors, b"\n")
}
