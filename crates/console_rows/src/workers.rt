//! Counts the two workers of the whole program. It calls `run`, `lockless` and `demo` as a user does, over a shelf in
//! memory that never fails. Their gate counts what the workers do (`turn_watch`).
//!
//! What a line says of the workers is missing if a command makes its run, or a part of it, in one thread:
//! `tools/evidence/try_one_worker.sh` tries such bodies.
//!
//! Each run is checked whole: its status, its message, every byte of its picture and sound against those of `serial`,
//! the numbers of its turns, and that every turn had two threads. Both legs of a turn must overlap in each row. A row
//! whose legs never do is run again, three times at most, since a busy machine can hold a thread back. Standard error
//! has the counts of each run.
//!
//! The lines of `data/workers.txt` are those that say what rows of the whole program are run with (`program`), and
//! `turns MOST COMMAND WORDS`: a command, its other arguments, and the most turns that it may take.

use crate::program::answer::answer;
use crate::program::rows::{Rows, words_of};
use memory_shelves::SureShelf;
use port_wire::{Gate, OpenGate};
use shelf::Out;
use snes_commands::Status;
use std::rt::Files;
use std::thread::Threads;
use std::{io, str};
use turn_watch::{Counts, Watch};

/// The most times that a row is run.
const MOST_TRIES: u8 = 3;

/// A command line, with one space between two of its words.
#[derive(Clone, Copy)]
struct Row<'a> {
    /// The whole line, and its first word and the others.
    line: &'a str,
    command: &'a str,
    words: &'a str,
    /// The most turns that it may take.
    most_turns: u64,
}

/// Reads `turns MOST COMMAND WORDS`.
fn row_of(line: &str) -> Option<Row<'_>> {
    let (most_turns, line) = line.strip_prefix("turns ")?.split_once(' ')?;
    let (command, words) = line.split_once(' ')?;
    Some(Row {
        line,
        command,
        words,
        most_turns: most_turns.parse().ok()?,
    })
}

/// Runs a command line over a shelf, with this gate, and returns whether the status is Ok.
fn is_run<R: AllocGlobal + Threads>(
    rt: &R,
    gate: &dyn Gate,
    line: &str,
    shelf: &mut SureShelf,
) -> bool {
    match words_of(rt.alloc(), line) {
        Some(argv) => answer(rt, gate, &argv, shelf) == Status::Ok,
        None => false,
    }
}

/// Whether two shelves have the same picture and sound, each under its name.
fn are_alike(one: &SureShelf, other: &SureShelf) -> bool {
    one.written(Out::Video) == other.written(Out::Video)
        && one.written(Out::Sound) == other.written(Out::Sound)
        && one.named(Out::Video) == other.named(Out::Video)
        && one.named(Out::Sound) == other.named(Out::Sound)
}

/// The result of a row by two workers, compared with `serial`.
#[derive(Clone, Copy)]
struct Seen {
    ended: bool,
    alike: bool,
    counts: Counts,
}

/// Runs a row by two workers, into a shelf that holds its files, and compares what it left with what `serial` left.
fn run_beside<R: AllocGlobal + Threads + Files + Sync>(
    rt: &R,
    watch: &Watch<'_, R>,
    gate: &dyn Gate,
    row: Row<'_>,
    by_two: &mut SureShelf,
    serially: &SureShelf,
) -> Seen {
    watch.begin();
    let ended = is_run(rt, gate, row.line, by_two);
    Seen {
        ended,
        alike: are_alike(by_two, serially),
        counts: watch.counts(),
    }
}

/// Prints the result of a row: its status, its line, whether its bytes are those of `serial`, and its workers.
fn show_seen<R: Print>(rt: &R, row: Row<'_>, by_two: &SureShelf, seen: Seen) -> io::Result<()> {
    let Ok(said) = str::from_utf8(by_two.written(Out::Say)) else {
        return println!(rt; "no text");
    };
    let ends = if seen.ended { "Ok" } else { "not Ok" };
    let bytes = if row.command == "demo" {
        "no files"
    } else if seen.alike {
        "the bytes of serial"
    } else {
        "other bytes than serial"
    };
    let numbers = if 0 < seen.counts.turns && seen.counts.turns <= row.most_turns {
        "as they should be"
    } else {
        "wrong"
    };
    let threads = if seen.counts.all_on_two_threads() {
        "every"
    } else {
        "not every"
    };
    let legs = if seen.counts.overlaps() {
        "overlap"
    } else {
        "never overlap"
    };
    println!(rt;
        "{} {said:?}, {ends}, {bytes}: turns are {numbers}, {threads} turn has two threads, legs {legs}",
        row.command
    )
}

/// Prints the counts on standard error, since they differ from run to run.
fn tell<R: Eprint>(rt: &R, row: Row<'_>, tried: u8, counts: Counts) {
    let _told = eprintln!(rt;
        "{}, try {tried}: {} turns, {} on two threads, {} overlapped",
        row.command, counts.turns, counts.on_two_threads, counts.overlapped
    );
}

/// Runs a row once more, and prints the result unless only its legs never overlapped and it may be run again. `by_two`
/// holds its files. Returns whether it has printed.
fn compare<R: AllocGlobal + Threads + Files + Sync + Print + Eprint>(
    rt: &R,
    watch: &Watch<'_, R>,
    gate: &dyn Gate,
    row: Row<'_>,
    by_two: &mut SureShelf,
    serially: &SureShelf,
    tried: u8,
) -> io::Result<bool> {
    let seen = run_beside(rt, watch, gate, row, by_two, serially);
    tell(rt, row, tried, seen.counts);
    let is_whole = seen.ended && seen.alike && seen.counts.all_on_two_threads();
    if is_whole && !seen.counts.overlaps() && tried < MOST_TRIES {
        return Ok(false);
    }
    show_seen(rt, row, by_two, seen)?;
    Ok(true)
}

/// Runs a row once more over a shelf of its own. Returns whether it has printed the result.
fn try_row<R: AllocGlobal + Threads + Files + Sync + Print + Eprint>(
    rt: &R,
    watch: &Watch<'_, R>,
    gate: &dyn Gate,
    rows: &Rows,
    row: Row<'_>,
    serially: &SureShelf,
    tried: u8,
) -> io::Result<bool> {
    match rows.sure_shelf(rt.alloc(), row.words) {
        Some(mut by_two) => compare(rt, watch, gate, row, &mut by_two, serially, tried),
        None => {
            println!(rt; "no memory")?;
            Ok(true)
        }
    }
}

/// Runs a row by two workers until a run is to be printed, three times at most. `serially` has what `serial` left.
fn show_tries<R: AllocGlobal + Threads + Files + Sync + Print + Eprint>(
    rt: &R,
    watch: &Watch<'_, R>,
    gate: &dyn Gate,
    rows: &Rows,
    row: Row<'_>,
    serially: &SureShelf,
) -> io::Result<()> {
    for tried in 1..=MOST_TRIES {
        if try_row(rt, watch, gate, rows, row, serially, tried)? {
            return Ok(());
        }
    }
    Ok(())
}

/// Runs `serial` on a row's files, into a shelf that holds them, and returns whether the status is Ok. `demo` has no
/// files, and leaves nothing.
fn is_run_serially<R: AllocGlobal + Threads>(
    rt: &R,
    row: Row<'_>,
    serially: &mut SureShelf,
) -> bool {
    if row.command == "demo" {
        return true;
    }
    match format!(in rt.alloc(); "serial {}", row.words) {
        Ok(line) => is_run(rt, &OpenGate, line.as_str(), serially),
        Err(_) => false,
    }
}

/// Runs a row by `serial`, into a shelf that holds its files, and by two workers. Prints the result.
fn run_both_ways<R: AllocGlobal + Threads + Files + Sync + Print + Eprint>(
    rt: &R,
    watch: &Watch<'_, R>,
    gate: &dyn Gate,
    rows: &Rows,
    row: Row<'_>,
    serially: &mut SureShelf,
) -> io::Result<()> {
    if is_run_serially(rt, row, serially) {
        show_tries(rt, watch, gate, rows, row, serially)
    } else {
        println!(rt; "{} has no serial run beside it", row.command)
    }
}

/// Runs a row, and prints the result.
fn show<R: AllocGlobal + Threads + Files + Sync + Print + Eprint>(
    rt: &R,
    watch: &Watch<'_, R>,
    gate: &dyn Gate,
    rows: &Rows,
    row: Row<'_>,
) -> io::Result<()> {
    match rows.sure_shelf(rt.alloc(), row.words) {
        Some(mut serially) => run_both_ways(rt, watch, gate, rows, row, &mut serially),
        None => println!(rt; "no memory"),
    }
}

/// Follows a line, unless it is empty or a comment: runs a row, or reads what rows are run with. The watch is the gate
/// too.
pub fn follow<R: AllocGlobal + Threads + Files + Sync + Print + Eprint>(
    rt: &R,
    watch: &Watch<'_, R>,
    gate: &dyn Gate,
    rows: &mut Rows,
    line: &str,
) -> io::Result<()> {
    if line.is_empty() || line.starts_with("#") {
        return Ok(());
    }
    if let Some(row) = row_of(line) {
        return show(rt, watch, gate, rows, row);
    }
    match rows.line(line) {
        Some(()) => Ok(()),
        None => println!(rt; "no line of rows: {line}"),
    }
}
