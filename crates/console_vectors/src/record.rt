use case_text::{hashed, no_hash};

/// The hash of the records of the first `steps` steps.
#[derive(Clone, Copy)]
pub struct Beginning {
    /// The number of steps.
    pub steps: u64,
    /// The 64-bit FNV-1a hash of their records.
    pub hash: u64,
}

/// The expected hashes of a side's first steps, the shortest beginning first, and how many of them agree.
#[derive(Drop)]
pub struct Record {
    expected: Vec<Beginning>,
    agree: usize,
    next: usize,
    made: u64,
    hash: u64,
}

impl Record {
    /// Returns a record that expects these beginnings, of no steps yet.
    pub fn of(expected: Vec<Beginning>) -> Record {
        Record {
            expected,
            agree: 0,
            next: 0,
            made: 0,
            hash: no_hash(),
        }
    }

    /// Returns the number of beginnings, and how many of them came and agree.
    pub fn count(&self) -> (usize, usize) {
        (self.expected.len(), self.agree)
    }

    /// Whether every expected beginning came.
    pub fn is_full(&self) -> bool {
        self.next >= self.expected.len()
    }

    /// Returns the number of the next step, from 0.
    pub fn number(&self) -> u64 {
        self.made
    }

    /// Adds a number to a step's record, in the given number of bytes, low byte first.
    pub fn add(&mut self, number: u64, bytes: usize) {
        for byte in number.to_le_bytes().iter().take(bytes) {
            self.hash = hashed(self.hash, *byte);
        }
    }

    /// Ends a step's record.
    pub fn end_step(&mut self) {
        self.made = self.made.saturating_add(1);
        if let Some(beginning) = self.expected.get(self.next) {
            if beginning.steps == self.made {
                if beginning.hash == self.hash {
                    self.agree = self.agree.saturating_add(1);
                }
                self.next = self.next.saturating_add(1);
            }
        }
    }
}
