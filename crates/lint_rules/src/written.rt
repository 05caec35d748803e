//! Which bytes of a memory have been written.

ghost use Rattle.std.specs.Prelude.{◌≡◌};
ghost use Rattle.lint_rules.specs.Memories.{is_first_read, marked};

use std::alloc::{AllocError, Global};

/// Which bytes of a memory have been written. Each byte that nothing has written counts once, at its first read.
#[derive(Drop)]
pub struct Written {
    /// A mark for each byte.
    marks: Vec<bool>,
}

impl Written {
    /// Returns that nothing has been written of a memory of so many bytes.
    pub fn nothing(alloc: Global, size: usize) -> Result<Written, AllocError> {
        Ok(Written {
            marks: vec![in alloc; false; size]?,
        })
    }

    /// Whether a byte has been written, or was read before. Behind the memory's end none has.
    pub fn has(&self, at: usize) -> bool {
        at < self.marks.len() && self.marks[at]
    }

    /// Sets or clears the mark of a byte.
    pub fn put(&mut self, at: usize, mark: bool) {
        if at < self.marks.len() {
            self.marks[at] = mark;
        }
    }

    /// Takes note of a write to a byte. Behind the memory's end nothing changes.
    pub fn write(&mut self, at: usize)
        ensures { self.new.marks.items ≡ marked self.old.marks.items at }
    {
        if at < self.marks.len() {
            self.marks[at] = true;
        }
    }

    /// Takes note of a read of a byte, and returns whether it is the first access to it.
    pub fn read(&mut self, at: usize) -> bool
        ensures first { result ≡ is_first_read self.old.marks.items at }
        ensures marks { self.new.marks.items ≡ marked self.old.marks.items at }
    {
        if at < self.marks.len() && !self.marks[at] {
            self.marks[at] = true;
            return true;
        }
        false
    }
}
