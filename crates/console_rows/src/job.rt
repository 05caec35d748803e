//! Runs one job over real files, as `snes` does, with a gate that counts what its two workers do (`turn_watch`).

use crate::program::answer::answer;
use file_shelf::FileShelf;
use port_wire::Gate;
use run_io::Argv;
use snes_commands::Status;
use std::io;
use std::process::ExitCode;
use std::rt::Files;
use std::thread::Threads;
use turn_watch::{Counts, Watch};

/// Prints the counts of a job's turns on standard error.
fn tell<R: Eprint>(rt: &R, counts: Counts) -> io::Result<()> {
    eprintln!(rt;
        "{} turns, {} on two threads, {} overlapped",
        counts.turns, counts.on_two_threads, counts.overlapped
    )
}

/// Runs the job over real files, and returns its status.
fn run_job<R: AllocGlobal + Files + Threads + Print>(
    rt: &R,
    gate: &dyn Gate,
    words: &Argv,
) -> Status {
    let mut shelf = FileShelf::new(rt);
    answer(rt, gate, words, &mut shelf)
}

/// Runs the job, prints the counts of its turns on standard error, and returns the status of `snes`.
pub fn run_watched<R: AllocGlobal + Files + Sync + Threads + Print + Eprint>(
    rt: &R,
    watch: &Watch<'_, R>,
    gate: &dyn Gate,
    words: &[String],
) -> io::Result<ExitCode> {
    let Ok(argv) = Argv::of(rt.alloc(), words) else {
        return Ok(ExitCode::from(Status::NoMemory.exit()));
    };
    watch.begin();
    let status = run_job(rt, gate, &argv);
    tell(rt, watch.counts())?;
    Ok(ExitCode::from(status.exit()))
}
