use crate::part::Case;
use std::io;

/// The number of lines of a part so far, and how many differ.
#[derive(Clone, Copy)]
pub struct Tally {
    lines: u64,
    different: u64,
}

impl Tally {
    /// Returns the tally of no lines.
    pub fn new() -> Tally {
        Tally {
            lines: 0,
            different: 0,
        }
    }

    /// Does or compares a line of a case, counts it, and prints it if it differs.
    pub fn compare<R: Print>(&mut self, rt: &R, case: &mut Case, line: &str) -> io::Result<()> {
        self.lines = self.lines.saturating_add(1);
        if case.holds(line) {
            return Ok(());
        }
        self.different = self.different.saturating_add(1);
        println!(rt; "differs: {line}")
    }

    /// Prints both numbers.
    pub fn tell<R: Print>(&self, rt: &R) -> io::Result<()> {
        let lines = self.lines;
        let different = self.different;
        println!(rt; "{lines} lines, {different} differ")
    }
}
