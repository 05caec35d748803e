//! Runs the test vectors of the given files, such as `data/cpu.txt` and `data/spc.txt`, through both processors.
//!
//! The vectors are external: two other programs agreed on them. Those of `data/cpu_worked.txt` are computed by hand.
//! The program uses `cpu65816` and `spc700`. It prints each case that differs, and last the number of cases of each
//! processor. Those of `data/cpu_differing.txt` and `data/spc_differing.txt` are wrong in one thing each, and must
//! differ.
//!
//! A file has a case a line, with the registers before and after:
//!
//! - `cpu LABEL A X Y S D PC PBR DBR P E | BYTES | ACCESSES | A X Y S D PC PBR DBR P E`. An access is `F` (fetch), `R`
//!   or `W` with an address of six digits and a byte, or `I`; `S` with two digits gives the levels of NMI and IRQ;
//! - `spc LABEL A X Y SP PC PSW | BYTES | ACCESSES | A X Y SP PC PSW`. An access is `F` (fetch), `R` or `W` with an
//!   address of four digits and a byte, or `I`.
//!
//! The files after the argument `orders` are pages with a table of access orders (`orders`).
#![tactic(auto)]

mod cpu_case;
mod orders;
mod spc_case;

use std::{env, fs, io};

/// The number of cases so far, and how many differ.
#[derive(Clone, Copy)]
struct Tally {
    cases: u64,
    different: u64,
}

impl Tally {
    /// Returns the tally of no cases.
    fn new() -> Tally {
        Tally {
            cases: 0,
            different: 0,
        }
    }

    /// Counts a case, and prints the line of one that differs.
    fn count<R: Print>(&mut self, rt: &R, line: &str, holds: bool) -> io::Result<()> {
        self.cases = self.cases.saturating_add(1);
        if holds {
            return Ok(());
        }
        self.different = self.different.saturating_add(1);
        println!(rt; "differs: {line}")
    }

    /// Prints both numbers.
    fn tell<R: Print>(&self, rt: &R, processor: &str) -> io::Result<()> {
        let Tally { cases, different } = *self;
        println!(rt; "{processor}: {cases} cases, {different} differ")
    }
}

/// What a file contains.
#[derive(Clone, Copy)]
enum Kind {
    Cases,
    Orders,
}

/// The tallies of both processors.
#[derive(Clone, Copy)]
struct Tallies {
    cpu: Tally,
    spc: Tally,
}

impl Tallies {
    /// Runs the cases of a text.
    fn follow<R: Print>(&mut self, rt: &R, text: &str) -> io::Result<()> {
        for line in text.lines() {
            if line.starts_with("cpu ") {
                self.cpu.count(rt, line, cpu_case::holds(line))?;
            } else if line.starts_with("spc ") {
                self.spc.count(rt, line, spc_case::holds(line))?;
            }
        }
        Ok(())
    }
}

fn main(rt: HostRuntime) -> io::Result<()> {
    let mut kind = Kind::Cases;
    let mut tallies = Tallies {
        cpu: Tally::new(),
        spc: Tally::new(),
    };
    for word in env::args(&rt)?.skip(1) {
        match word.as_str() {
            "orders" => kind = Kind::Orders,
            name => {
                let text = fs::read_to_string(&rt, name)?;
                match kind {
                    Kind::Cases => tallies.follow(&rt, text.as_str())?,
                    Kind::Orders => orders::follow(&rt, name, text.as_str())?,
                }
            }
        }
    }
    tallies.cpu.tell(&rt, "65C816")?;
    tallies.spc.tell(&rt, "SPC700")
}
