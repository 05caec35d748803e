//! Writes and reads the tags of sound files, for comparison with rows that a script outside computed
//! (`tools/evidence/tag_rows.py`) or that were computed by hand.
//!
//! The program follows the lines of the given files, such as `data/rows.txt`:
//!
//! - `row TITLE` prints its title.
//! - `file COUNT` begins a sound file of COUNT bytes, with its text and version, no tags and zeros; the tags that are to
//!   be written are empty.
//! - `put OFFSET BYTES` puts bytes into the file, `fill OFFSET COUNT BYTE` one byte many times; hexadecimal, the count
//!   decimal.
//! - `set FIELD TEXT` sets a tag that is to be written, and prints why it is refused if it is.
//! - `write` writes the tags into the file.
//! - `bytes FROM TO` prints bytes of the file; hexadecimal.
//! - `show` prints the report, or why the file is refused.
#![tactic(auto)]

mod rows;

use rows::Rows;
use std::rt::Files;
use std::{env, fs, io};

/// Follows the lines of a file.
fn follow<R: Files + Print + AllocGlobal>(rt: &R, rows: &mut Rows, name: &str) -> io::Result<()> {
    let text = fs::read_to_string(rt, name)?;
    for line in text.lines() {
        if line.is_empty() || line.starts_with("#") {
            continue;
        }
        rows.follow(rt, line)?;
    }
    Ok(())
}

fn main(rt: HostRuntime) -> io::Result<()> {
    let mut rows = Rows::new(rt.alloc());
    for name in env::args(&rt)?.skip(1) {
        follow(&rt, &mut rows, name.as_str())?;
    }
    Ok(())
}
