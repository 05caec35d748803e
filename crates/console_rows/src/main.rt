//! Runs the console's machine by itself over short programs, and prints what it does at the ports, with its clocks,
//! or its picture, for comparison with hand-computed cases. Runs rows of the whole program over that console too, so
//! that one program has them all.
//!
//! The program follows the lines of the given files, such as `data/rows.txt`, where each row says why its expected
//! output, in `stdout`, is what it is. The lines, with numbers in hexadecimal except for counts:
//!
//! - `row TITLE` begins a row, whose cartridge is LoROM of 32 KiB with the RESET vector 8000, and prints its title.
//! - `code WORDS` adds bytes to the program at 8000; a word is bytes, or `N*BYTES` for N times these.
//! - `set AAAAVV ..` adds `LDA #VV` and `STA AAAA` for each.
//! - `line VV` adds a wait for the line whose low byte is VV: `LDA 213F`, `LDA 2137`, `LDA 213D`, `CMP #VV`, `BNE`.
//! - `put OFFSET WORDS` puts bytes into the cartridge.
//! - `script TEXT` is a line of the script.
//! - `keep` keeps the cartridge as it is; `kept` takes what was kept.
//! - `acts FROM TO` prints the acts at the ports that aren't quiet, from one clock to another; `lines FROM TO` with the
//!   line alone, `since FROM TO` with the clocks since the first of them.
//! - `bytes TO` prints the bytes that are written to the ports, up to a clock.
//! - `picture FRAME` prints a frame from 0 on, equal rows in one line, each by runs of equal dots.
//!
//! The files after an argument `program` are rows of the whole program (`program`), and those after `workers` are rows
//! about what no output byte and no clause shows: that a run's two workers overlap. An argument `plans` runs those
//! about through how many frames a rewinder steps its machines. After an argument `job` come those of one run over
//! real files. It is run as `snes` runs it, its workers are counted, and the status is that of `snes`.
//!
//! A read of a port gets 0, except in rows with `torn`: port 0 gets 1 after clock 540, and port 1 gets 2 after clock
//! 546.
#![tactic(auto)]

mod cartridge;
mod job;
mod picture;
mod plans;
mod program;
mod row;
mod run;
mod workers;

use port_wire::Gate;
use program::rows::Rows;
use row::Row;
use std::alloc::Global;
use std::process::ExitCode;
use std::rt::Files;
use std::thread::Threads;
use std::{env, fs, io};
use turn_watch::Watch;

/// What the rows of a file are of.
#[derive(Clone, Copy)]
enum Kind {
    /// The console by itself.
    Console,
    /// The whole program.
    Program,
    /// The whole program's two workers.
    Workers,
}

/// Follows a line of a file of rows.
fn follow_line<R: Files + Print + Eprint + AllocGlobal + Threads + Sync>(
    rt: &R,
    watch: &Watch<'_, R>,
    gate: &dyn Gate,
    kind: Kind,
    row: &mut Row,
    rows: &mut Rows,
    line: &str,
) -> io::Result<()> {
    match kind {
        Kind::Program => program::follow::follow(rt, watch, gate, rows, line),
        Kind::Console => row.follow(rt, rt.alloc(), line),
        Kind::Workers => workers::follow(rt, watch, gate, rows, line),
    }
}

/// Follows the lines of a file. Rows of the program begin without files, and with no room.
fn follow<R: Files + Print + Eprint + AllocGlobal + Threads + Sync>(
    rt: &R,
    watch: &Watch<'_, R>,
    gate: &dyn Gate,
    kind: Kind,
    row: &mut Row,
    rows: &mut Rows,
    name: &str,
) -> io::Result<()> {
    rows.begin(rt.alloc());
    let text = fs::read_to_string(rt, name)?;
    for line in text.lines() {
        follow_line(rt, watch, gate, kind, row, rows, line)?;
    }
    Ok(())
}

/// Does what each of these words asks for.
fn follow_words<R: Files + Print + Eprint + AllocGlobal + Threads + Sync>(
    rt: &R,
    watch: &Watch<'_, R>,
    gate: &dyn Gate,
    row: &mut Row,
    rows: &mut Rows,
    words: &[String],
) -> io::Result<()> {
    let mut kind = Kind::Console;
    for word in words {
        match word.as_str() {
            "program" => kind = Kind::Program,
            "workers" => kind = Kind::Workers,
            "plans" => plans::show_all(rt)?,
            name => follow(rt, watch, gate, kind, row, rows, name)?,
        }
    }
    Ok(())
}

/// Does what the program's arguments ask for, unless they are those of a job.
fn follow_all<R: Files + Print + Eprint + AllocGlobal + Threads + Sync>(
    rt: &R,
    watch: &Watch<'_, R>,
    gate: &dyn Gate,
    words: &[String],
) -> io::Result<()> {
    let mut row = Row::new(rt.alloc());
    let mut rows = Rows::new(rt.alloc());
    follow_words(rt, watch, gate, &mut row, &mut rows, words)
}

/// Does what the program's arguments ask for. The watch is the gate too.
fn obey<R: Files + Print + Eprint + AllocGlobal + Threads + Sync>(
    rt: &R,
    watch: &Watch<'_, R>,
    gate: &dyn Gate,
    words: &[String],
) -> io::Result<ExitCode> {
    match words.split_first() {
        Some((first, job)) if first.as_str() == "job" => job::run_watched(rt, watch, gate, job),
        _ => {
            follow_all(rt, watch, gate, words)?;
            Ok(ExitCode::SUCCESS)
        }
    }
}

fn main(rt: HostRuntime) -> io::Result<ExitCode> {
    let watch = Watch::new(&rt);
    let words: Vec<String> = env::args(&rt)?.skip(1).collect(rt.alloc())?;
    obey(&rt, &watch, &watch, words.as_slice())
}
