// Shares an amount among claims under a named rule, and prints what each claim gets.
#![tactic(auto)]

mod failure;
mod report;
mod request;
mod rule;

use failure::Failure;
use request::{answer, read};
use std::env;
use std::process::ExitCode;

// The arguments, without the program's name.
fn words(rt: &HostRuntime) -> Result<Vec<String>, Failure> {
    let mut args = env::args(rt)?;
    let _program = args.next();
    let words = args.collect(rt.alloc())?;
    Ok(words)
}

// Does what the arguments ask, and answers the text to print.
fn run(rt: &HostRuntime) -> Result<String, Failure> {
    let heap = rt.alloc();
    let words = words(rt)?;
    let request = read(heap, words.as_slice())?;
    answer(heap, &request)
}

// Prints what was asked for, or says what failed.
fn end(rt: &HostRuntime) -> Result<(), Failure> {
    let text = run(rt).map_err(|failure| failure.told(rt))?;
    print!(rt; "{text}")?;
    Ok(())
}

fn main(rt: HostRuntime) -> ExitCode {
    match end(&rt) {
        Ok(()) => ExitCode::SUCCESS,
        Err(_) => ExitCode::FAILURE,
    }
}
