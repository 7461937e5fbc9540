//! plantbal: balanced accounts of a plant with certificates, from standard input to standard output.
#![tactic(auto)]

use pb_cli::run_program;
use pb_io::{StdSink, StdSource};
use std::env;
use std::process::ExitCode;

fn main(rt: HostRuntime) -> ExitCode {
    run_program(
        rt.alloc(),
        env::args(&rt),
        &mut StdSource::new(rt.stdin()),
        &mut StdSink::new(rt.stdout()),
        &mut StdSink::new(rt.stderr()),
    )
}
