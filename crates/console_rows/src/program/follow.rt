use crate::program::compare::{are_alike, is_begun, is_same};
use crate::program::disk::disk;
use crate::program::rows::{Failure, NO_ROW, Outcome, Rows, performed, performed_through};
use crate::program::show::{Detail, show_answer, show_outputs};
use memory_shelves::ShelfCall;
use port_wire::Gate;
use shelf::Out;
use snes_commands::Status;
use std::alloc::Global;
use std::rt::Files;
use std::thread::Threads;
use std::{io, str};
use turn_watch::{Counts, Watch};

/// More puts than any row makes whose puts fail in turn.
const MOST_PUTS: u32 = 2000;

/// Keeps an output that was made, as a file for later rows.
fn keep(rows: &mut Rows, outcome: &Outcome, out: Out) -> Option<()> {
    let name = outcome.shelf.named(out);
    if name.is_empty() {
        return Some(());
    }
    rows.files.add(name, outcome.shelf.written(out))
}

/// Keeps an image and a sound file that were made.
fn keep_made(rows: &mut Rows, outcome: &Outcome) -> Option<()> {
    keep(rows, outcome, Out::Image)?;
    keep(rows, outcome, Out::Spc)
}

/// Prints the status of a row and all that was written.
fn show_row<R: Print>(rt: &R, rows: &mut Rows, outcome: &Outcome) -> io::Result<()> {
    show_answer(rt, outcome)?;
    show_outputs(rt, outcome, Detail::Bytes)?;
    match keep_made(rows, outcome) {
        Some(()) => Ok(()),
        None => println!(rt; "  {NO_ROW}"),
    }
}

/// Prints the line of a row up to its two sums, which are not known from outside.
fn show_opening<R: Print>(rt: &R, outcome: &Outcome) -> io::Result<()> {
    let exit = outcome.status.exit();
    let said = str::from_utf8(outcome.shelf.written(Out::Say)).unwrap_or("");
    match said.split_once(" video ") {
        Some((front, _)) => println!(rt; "  exit {exit}, said {front:?} and more"),
        None => println!(rt; "  exit {exit}, said {said:?}"),
    }
}

/// Runs files by a command, with this gate for its workers.
fn run_by<R: AllocGlobal + Threads>(
    rt: &R,
    gate: &dyn Gate,
    rows: &Rows,
    command: &str,
    words: &str,
) -> Option<Outcome> {
    let words = format!(in rt.alloc(); "{command} {words}").ok()?;
    performed_through(rt, gate, rows, words.as_str(), None)
}

/// Runs a row's files by another command, and returns whether it left what `run` did.
fn leaves_the_same<R: AllocGlobal + Threads>(
    rt: &R,
    gate: &dyn Gate,
    rows: &Rows,
    command: &str,
    words: &str,
    by_turns: &Outcome,
) -> Option<bool> {
    let outcome = run_by(rt, gate, rows, command, words)?;
    Some(are_alike(by_turns, &outcome))
}

/// Prints whether every turn of a command had two threads, and whether both legs of a turn overlapped, if it has four
/// turns or more. Standard error has the counts, which differ from run to run.
fn show_workers<R: Print + Eprint>(rt: &R, command: &str, counts: Counts) -> io::Result<()> {
    let _told = eprintln!(rt;
        "{command}: {} turns, {} on two threads, {} overlapped",
        counts.turns, counts.on_two_threads, counts.overlapped
    );
    let told = if counts.turns == 0 {
        "no turn"
    } else if !counts.all_on_two_threads() {
        "a turn in one thread"
    } else if !counts.overlaps() {
        "two threads in every turn, whose legs never overlap"
    } else {
        "two threads in every turn"
    };
    println!(rt; "  {command}: {told}")
}

/// Prints whether `serial` and `lockless` left the same as `run`.
fn show_alike<R: Print>(rt: &R, serially: Option<bool>, lockless: Option<bool>) -> io::Result<()> {
    let told = match (serially, lockless) {
        (Some(true), Some(true)) => "run, serial and lockless alike",
        (Some(true), Some(false)) => "run and lockless differ",
        (Some(false), Some(true)) => "run and serial differ",
        (Some(false), Some(false)) => "run, serial and lockless differ",
        _ => NO_ROW,
    };
    println!(rt; "  {told}")
}

/// Runs a row by `run`, by `serial` and by `lockless`. Prints what `run` left, whether each of the others left the
/// same, and whether `run` and `lockless` had two threads in every turn. The watch is the gate too.
fn both<R: AllocGlobal + Threads + Files + Sync + Print + Eprint>(
    rt: &R,
    watch: &Watch<'_, R>,
    gate: &dyn Gate,
    rows: &Rows,
    words: &str,
    detail: Detail,
) -> io::Result<()> {
    watch.begin();
    match run_by(rt, gate, rows, "run", words) {
        Some(outcome) => show_both(rt, watch, gate, rows, words, detail, &outcome),
        None => println!(rt; "  {NO_ROW}"),
    }
}

fn show_both<R: AllocGlobal + Threads + Files + Sync + Print + Eprint>(
    rt: &R,
    watch: &Watch<'_, R>,
    gate: &dyn Gate,
    rows: &Rows,
    words: &str,
    detail: Detail,
    outcome: &Outcome,
) -> io::Result<()> {
    let by_run = watch.counts();
    show_answer(rt, outcome)?;
    show_outputs(rt, outcome, detail)?;
    let serially = leaves_the_same(rt, gate, rows, "serial", words, outcome);
    watch.begin();
    let lockless = leaves_the_same(rt, gate, rows, "lockless", words, outcome);
    show_alike(rt, serially, lockless)?;
    show_workers(rt, "run", by_run)?;
    show_workers(rt, "lockless", watch.counts())
}

/// How many puts failed, by the output that the status names.
#[derive(Drop)]
struct Puts {
    video: u32,
    sound: u32,
    line: u32,
}

impl Puts {
    /// Counts a status, and returns whether it is that of a failed put.
    fn count(&mut self, status: Status) -> bool {
        match status {
            Status::WriteFault(Out::Video) => self.video = self.video.saturating_add(1),
            Status::WriteFault(Out::Sound) => self.sound = self.sound.saturating_add(1),
            Status::WriteFault(Out::Say) => self.line = self.line.saturating_add(1),
            _ => return false,
        }
        true
    }
}

/// Prints what a failed put left that it should not. This is anything but a prefix of what the row leaves without a
/// failure, or less than all if the line was printed.
fn tell<R: Print>(rt: &R, nth: u32, part: &Outcome, whole: &Outcome) -> io::Result<()> {
    if !is_begun(part, whole) {
        println!(rt; "  put {nth}: other bytes are left")?;
    }
    if part.status == Status::WriteFault(Out::Say) && !is_same(part, whole) {
        println!(rt; "  put {nth}: the line comes too early")?;
    }
    Ok(())
}

/// Checks a row whose nth put was to fail, and counts its status. Returns whether it is that of a failed put.
fn count<R: Print>(
    rt: &R,
    nth: u32,
    part: &Outcome,
    whole: &Outcome,
    puts: &mut Puts,
) -> io::Result<bool> {
    tell(rt, nth, part, whole)?;
    if puts.count(part.status) {
        return Ok(true);
    }
    show_answer(rt, part)?;
    Ok(false)
}

/// Lets the nth put of a row fail, and counts the status. Returns whether it is that of a failed put.
fn fail_put<R: AllocGlobal + Threads + Print>(
    rt: &R,
    rows: &Rows,
    words: &str,
    nth: u32,
    whole: &Outcome,
    puts: &mut Puts,
) -> io::Result<bool> {
    let here = Failure {
        call: ShelfCall::Put(None),
        nth,
    };
    match performed(rt, rows, words, Some(here)) {
        Some(part) => count(rt, nth, &part, whole, puts),
        None => {
            println!(rt; "  {NO_ROW}")?;
            Ok(false)
        }
    }
}

/// Lets each put of a row fail in turn, until none is left to fail, and prints how many did, by output.
fn fail_each<R: AllocGlobal + Threads + Print>(
    rt: &R,
    rows: &Rows,
    words: &str,
    whole: &Outcome,
) -> io::Result<()> {
    let mut puts = Puts {
        video: 0,
        sound: 0,
        line: 0,
    };
    for nth in 1..MOST_PUTS {
        if !fail_put(rt, rows, words, nth, whole, &mut puts)? {
            break;
        }
    }
    println!(rt;
        "  failed in turn: {} of video, {} of sound, {} of the line",
        puts.video, puts.sound, puts.line
    )
}

/// Prints the status of a row of which some put failed. Prints too whether it left a prefix of what the row leaves
/// without a failure, with at least a byte of the output that failed. How long depends on where the two workers met.
fn beside<R: AllocGlobal + Threads + Print>(
    rt: &R,
    rows: &Rows,
    words: &str,
    part: &Outcome,
) -> io::Result<()> {
    match performed(rt, rows, words, None) {
        Some(whole) => show_part(rt, part, &whole),
        None => println!(rt; "  {NO_ROW}"),
    }
}

fn show_part<R: Print>(rt: &R, part: &Outcome, whole: &Outcome) -> io::Result<()> {
    show_answer(rt, part)?;
    let left = match part.status {
        Status::WriteFault(out) => part.shelf.written(out).len(),
        _ => 0,
    };
    let bytes = if left == 0 {
        "no"
    } else if is_begun(part, whole) {
        "first"
    } else {
        "other"
    };
    println!(rt; "  {bytes} bytes are left")
}

/// Runs `look NAME`: prints the length of a file, and its bytes at 8000 and at its end.
fn look<R: Print>(rt: &R, rows: &Rows, name: &str) -> io::Result<()> {
    let Some(bytes) = rows.files.find(name) else {
        return println!(rt; "  {NO_ROW}");
    };
    match bytes.get(0x8000) {
        Some(byte) => println!(rt; "  {} bytes, that at 8000 is {byte:02x}", bytes.len()),
        None => println!(rt; "  {} bytes", bytes.len()),
    }
}

/// What is printed of a row that is run once.
#[derive(Clone, Copy)]
enum Shown {
    /// The status and all that was written.
    Whole,
    /// The line up to its sums.
    Opening,
    /// What is left if each put fails in turn.
    Each,
    /// What the planned failure of a put left.
    Part,
    /// Whether real files come to hold the same.
    Disk,
}

/// Prints what a line asks for of a row that was run. It is lent here, so that one function drops it.
fn show_as_asked<R: AllocGlobal + Threads + Print + Files>(
    rt: &R,
    rows: &mut Rows,
    shown: Shown,
    words: &str,
    outcome: &Outcome,
) -> io::Result<()> {
    match shown {
        Shown::Whole => show_row(rt, rows, outcome),
        Shown::Opening => show_opening(rt, outcome),
        Shown::Each => fail_each(rt, rows, words, outcome),
        Shown::Part => {
            rows.mend();
            beside(rt, rows, words, outcome)
        }
        Shown::Disk => disk(rt, rows, words, outcome),
    }
}

/// Runs a row once, and prints what a line asks for.
fn run_row<R: AllocGlobal + Threads + Print + Files>(
    rt: &R,
    rows: &mut Rows,
    shown: Shown,
    words: &str,
) -> io::Result<()> {
    match performed(rt, rows, words, None) {
        Some(outcome) => show_as_asked(rt, rows, shown, words, &outcome),
        None => println!(rt; "  {NO_ROW}"),
    }
}

/// The kinds of lines that run something.
#[derive(Clone, Copy)]
enum Kind {
    /// A row is run once.
    Row(Shown),
    /// A row is run by `run`, `serial` and `lockless`, and this much is printed of its outputs.
    Both(Detail),
    /// A file is looked at.
    Look,
}

/// Returns the kind of a line by its first word.
fn kind_of(word: &str) -> Option<Kind> {
    Some(match word.as_bytes() {
        b"$" => Kind::Row(Shown::Whole),
        b"opening" => Kind::Row(Shown::Opening),
        b"both" => Kind::Both(Detail::Bytes),
        b"alike" => Kind::Both(Detail::Length),
        b"each" => Kind::Row(Shown::Each),
        b"part" => Kind::Row(Shown::Part),
        b"disk" => Kind::Row(Shown::Disk),
        b"look" => Kind::Look,
        _ => return None,
    })
}

/// Follows a line that runs something. The planned failures end with it.
fn run<R: AllocGlobal + Threads + Print + Eprint + Files + Sync>(
    rt: &R,
    watch: &Watch<'_, R>,
    gate: &dyn Gate,
    rows: &mut Rows,
    kind: Kind,
    words: &str,
) -> io::Result<()> {
    let done = match kind {
        Kind::Row(shown) => run_row(rt, rows, shown, words),
        Kind::Both(detail) => both(rt, watch, gate, rows, words, detail),
        Kind::Look => look(rt, rows, words),
    };
    rows.mend();
    done
}

/// Follows a line of a file of rows. Headings and rows are printed.
pub fn follow<R: AllocGlobal + Threads + Print + Eprint + Files + Sync>(
    rt: &R,
    watch: &Watch<'_, R>,
    gate: &dyn Gate,
    rows: &mut Rows,
    line: &str,
) -> io::Result<()> {
    if line.is_empty() {
        return Ok(());
    }
    if line.starts_with("#") {
        return println!(rt; "{line}");
    }
    let (word, words) = line.split_once(' ').unwrap_or((line, ""));
    if let Some(kind) = kind_of(word) {
        println!(rt; "{line}")?;
        return run(rt, watch, gate, rows, kind, words);
    }
    match rows.line(line) {
        Some(()) => Ok(()),
        None => println!(rt; "no line of rows: {line}"),
    }
}
