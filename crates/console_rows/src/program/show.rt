ghost use Rattle.std.specs.Prelude.{◌≤◌, length};

use crate::program::rows::Outcome;
use shelf::Out;
use std::{io, str};

/// The most runs of equal units by which an output is printed.
const MOST_RUNS: usize = 8;

/// The length of the longest name that is printed; a longer one is shown by its length.
const MOST_LETTERS: usize = 64;

/// The bytes of a state or of a sound file that are printed in one line.
const LINE: usize = 16;

/// How much of an output is printed.
#[derive(Clone, Copy, PartialEq, Eq)]
pub enum Detail {
    /// Its length.
    Length,
    /// Its runs of equal units of two bytes, or the sum of its bytes if there are many runs.
    Bytes,
}

/// Returns the sum of bytes.
fn sum(bytes: &[u8]) -> u64 {
    let mut sum = 0u64;
    for byte in bytes {
        sum = sum.wrapping_add(*byte as u64);
    }
    sum
}

/// Returns how many bytes the first run of equal units of two bytes has.
fn run(bytes: &[u8]) -> usize
    ensures { result ≤ length bytes.now }
{
    for (place, byte) in bytes.iter().enumerate() {
        if *byte != bytes[place % 2] {
            return place - place % 2;
        }
    }
    bytes.len()
}

/// Whether bytes have at most `MOST_RUNS` runs.
fn are_few(bytes: &[u8]) -> bool {
    let mut rest = bytes;
    for _ in 0..MOST_RUNS {
        rest = &rest[run(rest)..];
    }
    rest.is_empty()
}

/// Prints the first runs, each as a count of units and the unit as a number.
fn show_runs<R: Print>(rt: &R, bytes: &[u8]) -> io::Result<()> {
    let mut rest = bytes;
    for _ in 0..MOST_RUNS {
        if rest.len() < 2 {
            return Ok(());
        }
        let count = run(rest);
        let low = rest[0];
        let high = rest[1];
        print!(rt; ", {} of {high:02x}{low:02x}", count / 2)?;
        rest = &rest[count..];
    }
    Ok(())
}

/// Prints an output that was created.
fn show_output<R: Print>(
    rt: &R,
    what: &str,
    name: &str,
    bytes: &[u8],
    detail: Detail,
) -> io::Result<()> {
    if name.is_empty() {
        return Ok(());
    }
    if name.len() <= MOST_LETTERS {
        print!(rt; "  {what} {name}: {} bytes", bytes.len())?;
    } else {
        print!(rt;
            "  {what}, a name of {} bytes: {} bytes",
            name.len(),
            bytes.len()
        )?;
    }
    if detail == Detail::Bytes {
        if are_few(bytes) {
            show_runs(rt, bytes)?;
        } else {
            print!(rt; ", sum {}", sum(bytes))?;
        }
    }
    println!(rt; "")
}

/// Prints sixteen bytes behind their offset.
fn show_line<R: Print>(rt: &R, at: usize, line: &[u8]) -> io::Result<()> {
    print!(rt; "    {at:05x} ")?;
    for byte in line {
        print!(rt; " {byte:02x}")?;
    }
    println!(rt; "")
}

/// Prints a state or a sound file that was created: how many bytes it has, and each line of sixteen that has one other
/// than 0.
fn show_lines<R: Print>(rt: &R, what: &str, out: Out, outcome: &Outcome) -> io::Result<()> {
    let name = outcome.shelf.named(out);
    let bytes = outcome.shelf.written(out);
    show_output(rt, what, name, bytes, Detail::Length)?;
    for (number, line) in bytes.chunks(LINE).enumerate() {
        if line.iter().any(|byte| *byte != 0) {
            show_line(rt, number.saturating_mul(LINE), line)?;
        }
    }
    Ok(())
}

/// Prints the exit status and the line of the program.
pub fn show_answer<R: Print>(rt: &R, outcome: &Outcome) -> io::Result<()> {
    let exit = outcome.status.exit();
    match str::from_utf8(outcome.shelf.written(Out::Say)) {
        Ok(said) => println!(rt; "  exit {exit}, said {said:?}"),
        Err(_) => println!(rt; "  exit {exit}, and what was said is no text"),
    }
}

/// Prints a text that was written, line by line.
fn show_text<R: Print>(rt: &R, what: &str, name: &str, bytes: &[u8]) -> io::Result<()> {
    if name.is_empty() {
        return Ok(());
    }
    println!(rt; "  {what} {name}: {} bytes", bytes.len())?;
    for line in str::from_utf8(bytes).unwrap_or("no text").lines() {
        println!(rt; "    {line}")?;
    }
    Ok(())
}

/// Prints the outputs that were created.
pub fn show_outputs<R: Print>(rt: &R, outcome: &Outcome, detail: Detail) -> io::Result<()> {
    let shelf = &outcome.shelf;
    let video = shelf.written(Out::Video);
    let sound = shelf.written(Out::Sound);
    let image = shelf.written(Out::Image);
    let sums = shelf.written(Out::Sums);
    show_output(rt, "video", shelf.named(Out::Video), video, detail)?;
    show_output(rt, "sound", shelf.named(Out::Sound), sound, detail)?;
    show_output(rt, "image", shelf.named(Out::Image), image, detail)?;
    show_text(rt, "sums", shelf.named(Out::Sums), sums)?;
    show_lines(rt, "state", Out::State, outcome)?;
    show_lines(rt, "spc", Out::Spc, outcome)
}
