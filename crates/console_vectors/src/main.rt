//! Runs the jobs of the given files, such as `data/console.txt`, on the whole console and the whole sound side. Each
//! frame of the picture and of the sound is compared. The files behind the word `games` are rows of free cartridges
//! (`games`), until the word `jobs`.
//!
//! Each job is run by the serial console's loop, and by turns of two workers over either wire. The jobs are external
//! test vectors: two other programs agreed on them. The program uses `job_player` for both runs,
//! and `console_machine` and `audio_side` for the first steps. It names each job that differs, and prints last how many
//! jobs there were.
//! Those of `data/differing.txt` are wrong in one thing each, and must differ. Those of `data/turns.txt` are computed
//! by hand: sixty red frames, and two processors that pass bytes through the ports.
//!
//! By turns each worker passes a gate that counts (`turn_watch`). The turns of a job must be numbered from 0 on, in
//! order and alike for both workers. Every turn must have two threads, and both legs of a turn must overlap in each job
//! of four turns or more. The counts of all jobs go to standard error, since they differ from run to run.
//!
//! A job begins `job K` and ends `end`. Between, numbers are hexadecimal except for counts: `image LENGTH SEED
//! ANDS` and `p OFFSET BYTES` are the cartridge's file, each byte the AND of ANDS bytes of a generator;
//! `boot BYTES`, `table ramp` (the lesser of 4 i and 2047 for entry i) or `table SEED`, `script TEXT` for
//! each line, `frames N`; `v FRAME HASH` and `a FRAME SAMPLES HASH` are 64-bit FNV-1a hashes of a frame's
//! dots and samples. `c N HASH` and `d N HASH` are hashes of the records of the first N steps of the console and of
//! the sound side, with the earlier side always next. A console step's record has 14 bytes: the clock before the
//! step (8 bytes, low first), a letter, the address (3 bytes), the port and the byte; a sound step's has 12: the
//! number of the cycle (8), a letter, the address (2) and the byte. The letters are `F` fetch, `R` read, `W` write,
//! `I` internal cycle, `z` reset, `r` refresh, `l` a byte loaded by HDMA, `b` one moved by it, `B` and `A` a byte of DMA
//! to the B bus and to the A side; the address of a transfer is that of the A side, and the port its register of
//! the B bus. What isn't there is 0.
//!
//! `fill LENGTH BYTE` is a cartridge's file of one byte, and `turns N` the most turns of a run.
#![tactic(auto)]

mod case;
mod games;
mod marks;
mod play;
mod record;
mod steps;
mod tally;
mod turns;

use case::Case;
use games::Row;
use port_wire::Gate;
use std::rt::Files;
use std::thread::Threads;
use std::{env, fs, io};
use tally::{Tally, Workers, compare};
use turn_watch::Watch;

/// Prints in how many jobs every turn had two threads, and in how many both legs overlapped. Prints the counts of turns
/// on standard error.
fn show_workers<R: Print + Eprint>(rt: &R, how: &str, workers: &Workers) -> io::Result<()> {
    println!(rt;
        "{how}: two threads in every turn of {} jobs, legs that overlap in {}",
        workers.on_two_threads, workers.overlapping
    )?;
    eprintln!(rt;
        "{how}: {} turns, {} on two threads, {} overlapped",
        workers.turns.turns, workers.turns.on_two_threads, workers.turns.overlapped
    )
}

/// Prints how many jobs there were, and how many of them differ.
fn show_tally<R: Print + Eprint>(rt: &R, tally: &Tally) -> io::Result<()> {
    println!(rt;
        "{} jobs: {} differ, {} differ by turns, {} without a lock",
        tally.jobs, tally.different, tally.different_by_turns, tally.different_without_lock
    )?;
    show_workers(rt, "by turns", &tally.locked)?;
    show_workers(rt, "without a lock", &tally.lockless)?;
    println!(rt;
        "{} hashes of first steps: {} differ",
        tally.beginnings, tally.beginnings_different
    )
}

/// Follows a line of a job, which is read into `case`.
fn follow_line<R: Files + Print + AllocGlobal + Threads>(
    rt: &R,
    watch: &Watch<'_, R>,
    gate: &dyn Gate,
    case: &mut Case,
    tally: &mut Tally,
    line: &str,
) -> io::Result<()> {
    if line.starts_with("job ") {
        case.begin(rt.alloc());
        return Ok(());
    }
    if line == "end" {
        return compare(rt, watch, gate, case, tally);
    }
    match case.line(rt.alloc(), line) {
        Some(()) => Ok(()),
        None => println!(rt; "no line of a job: {line}"),
    }
}

/// Follows the lines of jobs, each of which is read into `case`.
fn follow_lines<R: Files + Print + AllocGlobal + Threads>(
    rt: &R,
    watch: &Watch<'_, R>,
    gate: &dyn Gate,
    case: &mut Case,
    tally: &mut Tally,
    text: &str,
) -> io::Result<()> {
    for line in text.lines() {
        if !line.is_empty() && !line.starts_with("#") {
            follow_line(rt, watch, gate, case, tally, line)?;
        }
    }
    Ok(())
}

/// Runs the jobs of a file.
fn run_jobs<R: Files + Print + AllocGlobal + Threads>(
    rt: &R,
    watch: &Watch<'_, R>,
    gate: &dyn Gate,
    tally: &mut Tally,
    name: &str,
) -> io::Result<()> {
    let text = fs::read_to_string(rt, name)?;
    let mut case = Case::new(rt.alloc());
    follow_lines(rt, watch, gate, &mut case, tally, text.as_str())
}

/// Follows the given files: rows behind the word `games`, and jobs at first and behind the word `jobs`.
fn follow_words<R: Files + Print + AllocGlobal + Threads>(
    rt: &R,
    watch: &Watch<'_, R>,
    gate: &dyn Gate,
    row: &mut Row,
    tally: &mut Tally,
    words: &[String],
) -> io::Result<()> {
    let mut is_game = false;
    for word in words {
        match word.as_str() {
            "games" => is_game = true,
            "jobs" => is_game = false,
            name if is_game => games::follow(rt, row, name)?,
            name => run_jobs(rt, watch, gate, tally, name)?,
        }
    }
    Ok(())
}

/// Follows the given files, and prints the results of the jobs, if there are any.
fn obey<R: Files + Print + Eprint + AllocGlobal + Threads>(
    rt: &R,
    watch: &Watch<'_, R>,
    gate: &dyn Gate,
    row: &mut Row,
    words: &[String],
) -> io::Result<()> {
    let mut tally = Tally::new();
    follow_words(rt, watch, gate, row, &mut tally, words)?;
    if tally.jobs == 0 {
        return Ok(());
    }
    show_tally(rt, &tally)
}

fn main(rt: HostRuntime) -> io::Result<()> {
    let words: Vec<String> = env::args(&rt)?.skip(1).collect(rt.alloc())?;
    let watch = Watch::new(&rt);
    let mut row = Row::new(rt.alloc());
    obey(&rt, &watch, &watch, &mut row, words.as_slice())
}
