//! Plays free cartridges as `./snes` does: the game and the cartridge of `examples/hello` with pads of both players,
//! whose hashes it prints, and those of `examples/profiles` in both profiles, which it compares with rows.
//!
//! The pictures' hashes in `stdout` come from another emulator (`tools/compare/game_rows.py`). So a wrong pad, a pad a
//! frame late and exchanged pads are detected.
//!
//! The program follows the lines of the given files, such as `data/games.txt`, `data/pads.txt` and `data/idioms.txt`:
//!
//! - `row TITLE` begins a row, whose script is empty, and prints its title.
//! - `put OFFSET BYTES` puts bytes into the cartridge `hello`, which is 32 KiB of zeros at first; both in hexadecimal.
//! - `cart game` or `cart hello` says which one is played from here on.
//! - `script TEXT` is a line of the script.
//! - `show BY FRAMES F ..` plays FRAMES frames by `serial`, `run` or `lockless`, and prints the hash of each frame F
//!   and of the sound.
//! - `keep FRAMES` plays FRAMES frames by `serial`, and keeps the hashes of its frames; `compare FRAMES` plays as many,
//!   and prints the first one that differs.
//! - `frame NAME PROFILE F SUM` plays a cartridge of `examples/profiles` by its script for PROFILE (`first` or
//!   `second`), and compares the SHA-256 of frame F, counted from 0, with SUM.
//! - `sounds NAME PROFILE FRAMES LENGTH ..` plays FRAMES frames, and compares the lengths of the sounds, in samples.
//!
//! Boot ROM and table are the free ones. A hash is 64-bit FNV-1a, of the 244,736 bytes of a frame and of all samples.

mod film;
mod idioms;
mod row;

pub use row::Row;
use std::rt::Files;
use std::thread::Threads;
use std::{fs, io};

/// Follows the lines of a file.
pub fn follow<R: Files + Print + AllocGlobal + Threads>(
    rt: &R,
    row: &mut Row,
    name: &str,
) -> io::Result<()> {
    let text = fs::read_to_string(rt, name)?;
    for line in text.lines() {
        if line.is_empty() || line.starts_with("#") {
            continue;
        }
        if idioms::is_idiom(line) {
            idioms::follow(rt, line)?;
        } else {
            row.follow(rt, line)?;
        }
    }
    Ok(())
}
