//! Runs the scenes of the sound through the voices and the echo.
//!
//! `sound_scenes` describes the lines of a scene. The program prints the first line that differs of each scene, with
//! the number of the scene, and last the number of scenes.

use sound_scenes::{Outcome, Unit};
use std::alloc::Global;
use std::io;

/// The number of scenes so far, and how many differ.
#[derive(Clone, Copy)]
pub struct Tally {
    cases: u64,
    different: u64,
}

/// Returns the given number of zeros.
fn zeros(alloc: Global, size: usize) -> io::Result<Vec<u8>> {
    Ok(vec![in alloc; 0u8; size]?)
}

/// Does a line of a scene, and returns whether it holds. Prints the first one that does not.
fn does<R: Print>(
    rt: &R,
    unit: &mut Unit,
    ram: &mut [u8],
    line: &str,
    held: bool,
) -> io::Result<bool> {
    match unit.line(ram, line) {
        Some(Outcome::Holds) => return Ok(held),
        Some(Outcome::Differs) => {
            if held {
                println!(rt; "differs: {line}")?;
            }
        }
        None => println!(rt; "no line of a case: {line}")?,
    }
    Ok(false)
}

impl Tally {
    /// Returns the tally of no scenes.
    pub fn new() -> Tally {
        Tally {
            cases: 0,
            different: 0,
        }
    }

    /// Counts a scene, and names one that differs.
    fn count<R: Print>(&mut self, rt: &R, holds: bool) -> io::Result<()> {
        self.cases = self.cases.saturating_add(1);
        if holds {
            return Ok(());
        }
        self.different = self.different.saturating_add(1);
        println!(rt; "case {} differs", self.cases)
    }

    /// Runs the scenes of a text.
    pub fn follow<R: Print + AllocGlobal>(&mut self, rt: &R, text: &str) -> io::Result<()> {
        let mut ram = zeros(rt.alloc(), 65536)?;
        let mut unit = Unit::new();
        let mut holds = true;
        for line in text.lines() {
            if line.is_empty() || line.starts_with("#") {
                continue;
            }
            if line.starts_with("sound ") {
                unit = Unit::new();
                ram.as_mut_slice().fill(0);
                holds = true;
            } else if line == "end" {
                self.count(rt, holds)?;
            } else {
                holds = does(rt, &mut unit, ram.as_mut_slice(), line, holds)?;
            }
        }
        Ok(())
    }

    /// Prints both numbers.
    pub fn tell<R: Print>(&self, rt: &R) -> io::Result<()> {
        let Tally { cases, different } = *self;
        println!(rt; "{cases} cases, {different} differ")
    }
}
