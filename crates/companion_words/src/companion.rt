//! What a companion does with its words, and its exit status.

use crate::table::{Program, command};
use anyhow::Result;
use clap::{ArgMatches, Error};
use standard_streams::hold_standard_streams;
use std::env;
use std::process::ExitCode;
use std::rt::{Env, Files};

/// The exit status of a companion that did what it is for.
pub const DONE: u8 = 0;

/// The exit status of a companion whose answer is no: two films differ, or no breakpoint was hit.
pub const NO: u8 = 1;

/// The exit status of a companion that could not do it: a file or the command line is at fault.
pub const FAULT: u8 = 2;

/// A companion of `snes`.
pub trait Companion {
    /// Its command line.
    fn program(&self) -> Program;

    /// Does what the words ask for, and gives the exit status. The command is empty if the companion has none.
    fn obey<R: Files + Print + Eprint + AllocGlobal>(
        &self,
        rt: &R,
        command: &str,
        words: &ArgMatches<'_>,
    ) -> Result<u8>;
}

/// Prints the help, or what is at fault in the command line, and returns the exit status.
pub fn answer<R: Print + Eprint>(rt: &R, error: &Error) -> Result<u8> {
    error.print(rt)?;
    Ok(if error.exit_code() == 0 { DONE } else { FAULT })
}

/// How a companion ends. A fault is one line on standard error, which begins with its name.
pub fn exit_of<R: Eprint>(rt: &R, program: &Program, ended: Result<u8>) -> ExitCode {
    match ended {
        Ok(status) => ExitCode::from(status),
        Err(error) => {
            let _ = eprintln!(rt; "{}: {error:#}", program.name);
            ExitCode::from(FAULT)
        }
    }
}

/// Reads the command line, and does what it asks for.
fn obey_words<C: Companion, R: Files + Print + Eprint + AllocGlobal + Env>(
    rt: &R,
    companion: &C,
    program: &Program,
) -> Result<u8> {
    let alloc = rt.alloc();
    let given: Vec<String> = env::args(rt)?.collect(alloc)?;
    let matches = match command(alloc, program)?.try_get_matches_from(given.as_slice()) {
        Ok(matches) => matches,
        Err(error) => return answer(rt, &error),
    };
    match matches.subcommand() {
        Some((name, words)) => companion.obey(rt, name, words),
        None => companion.obey(rt, "", &matches),
    }
}

/// Runs a companion: `main` of each of them that starts no thread.
pub fn run<C: Companion>(rt: &HostRuntime, companion: &C) -> ExitCode {
    let _streams = hold_standard_streams(rt);
    let program = companion.program();
    exit_of(rt, &program, obey_words(rt, companion, &program))
}
