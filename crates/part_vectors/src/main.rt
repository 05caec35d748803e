//! Runs external test vectors of the console's parts through the proved code. The parts are cartridges (which files
//! are one, and what is at an address), transfers, the processor's registers, the events of the beam, and registers on
//! the bus of both profiles.
//!
//! The arguments are files of cases. A file is of one part, that of the word which begins its first case: `cart`,
//! `dma`, `io`, `beam` or `bus`. It may have lines of comment, from `#` on; each other line is done or compared. The comment
//! of each part's module describes its lines. The program prints each line that differs, and after the last file of a
//! part the number of its lines.
//!
//! The cases of `data/cart.txt`, `dma.txt`, `io.txt` and `beam.txt` are external: two other programs agreed on them.
//! Those of `data/*_worked.txt` were computed by hand from the rules. Those of `data/*_differing.txt` are wrong in one
//! thing each, and must differ.
#![tactic(auto)]

mod buses;
mod cartridges;
mod events;
mod line;
mod part;
mod registers;
mod tally;
mod transfers;

use part::{Case, Part};
use std::{env, fs, io};
use tally::Tally;

fn main(rt: HostRuntime) -> io::Result<()> {
    let mut part = None;
    let mut tally = Tally::new();
    for name in env::args(&rt)?.skip(1) {
        let text = fs::read_to_string(&rt, name.as_str())?;
        let Some(next) = Part::of(text.as_str()) else {
            return println!(rt; "{name} has cases of no part");
        };
        if part.is_some_and(|part| part != next) {
            tally.tell(&rt)?;
            tally = Tally::new();
        }
        part = Some(next);
        let mut case = Case::new(rt.alloc(), next);
        for line in text.lines() {
            if !line.starts_with('#') {
                tally.compare(&rt, &mut case, line)?;
            }
        }
    }
    tally.tell(&rt)
}
