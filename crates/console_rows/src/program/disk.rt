// Runs rows over real files.
use crate::program::answer::answer;
use crate::program::rows::{NO_ROW, Outcome, Rows, words_of};
use file_shelf::FileShelf;
use port_wire::OpenGate;
use run_io::Argv;
use shelf::Out;
use snes_commands::Status;
use std::rt::Files;
use std::thread::Threads;
use std::{fs, io};

/// Writes the files that the arguments name.
fn lay<R: Files>(rt: &R, rows: &Rows, words: &str) -> io::Result<()> {
    for word in words.split(' ') {
        if let Some(bytes) = rows.files.find(word) {
            fs::write(rt, word, bytes)?;
        }
    }
    Ok(())
}

/// Removes the files that the arguments name, and the outputs of a row unless they are devices.
fn clear<R: Files>(rt: &R, rows: &Rows, words: &str, row: &Outcome) -> io::Result<()> {
    for word in words.split(' ') {
        if rows.files.find(word).is_some() {
            fs::remove_file(rt, word)?;
        }
    }
    for out in [Out::Video, Out::Sound, Out::Sums, Out::State, Out::Spc] {
        let name = row.shelf.named(out);
        if !name.is_empty() && !name.starts_with("/") {
            fs::remove_file(rt, name)?;
        }
    }
    Ok(())
}

/// Prints whether an output that was created has the same bytes on the disk as in memory. A device may have bytes
/// without end.
fn compare<R: AllocGlobal + Files + Print>(
    rt: &R,
    what: &str,
    out: Out,
    row: &Outcome,
) -> io::Result<()> {
    let name = row.shelf.named(out);
    if name.is_empty() {
        return Ok(());
    }
    if name.starts_with("/") {
        return println!(rt; "  {what} on a device, which isn't read back");
    }
    let bytes = fs::read(rt, name)?;
    if bytes.as_slice() == row.shelf.written(out) {
        println!(rt; "  {what} on the disk as in memory")
    } else {
        println!(rt;
            "  {what} on the disk: {} bytes, others than in memory",
            bytes.len()
        )
    }
}

/// Prints the exit status, and if that is 0, whether the outputs are those in memory.
fn compare_all<R: AllocGlobal + Files + Print>(
    rt: &R,
    status: Status,
    row: &Outcome,
) -> io::Result<()> {
    println!(rt; "  exit {}", status.exit())?;
    if status != Status::Ok {
        return Ok(());
    }
    compare(rt, "video", Out::Video, row)?;
    compare(rt, "sound", Out::Sound, row)?;
    compare(rt, "sums", Out::Sums, row)?;
    compare(rt, "state", Out::State, row)?;
    compare(rt, "spc", Out::Spc, row)
}

/// Calls the program over real files, and prints its line, the exit status, and whether the outputs are those in
/// memory. The outputs are read before their shelf is dropped, so bytes that were not flushed are missing.
fn answer_on_disk<R: AllocGlobal + Threads + Print + Files>(
    rt: &R,
    argv: &Argv,
    row: &Outcome,
) -> io::Result<()> {
    let mut shelf = FileShelf::new(rt);
    let status = answer(rt, &OpenGate, argv, &mut shelf);
    compare_all(rt, status, row)
}

/// Writes the files, calls the program, and removes the files and the outputs.
fn answer_between<R: AllocGlobal + Threads + Print + Files>(
    rt: &R,
    rows: &Rows,
    words: &str,
    argv: &Argv,
    row: &Outcome,
) -> io::Result<()> {
    lay(rt, rows, words)?;
    answer_on_disk(rt, argv, row)?;
    clear(rt, rows, words, row)
}

/// Runs a row over real files in the current folder, which holds none of them before and after. Prints the line, the
/// exit status, and if that is 0, whether the outputs are those of the same row in memory.
pub fn disk<R: AllocGlobal + Threads + Print + Files>(
    rt: &R,
    rows: &Rows,
    words: &str,
    row: &Outcome,
) -> io::Result<()> {
    match words_of(rt.alloc(), words) {
        Some(argv) => answer_between(rt, rows, words, &argv, row),
        None => println!(rt; "  {NO_ROW}"),
    }
}
