//! What is known of a case after its run.

use std::alloc::{AllocError, Global};

/// The golden picture of a frame.
#[derive(Drop)]
pub enum Golden {
    /// The frame of a golden film.
    Frame(Vec<u8>),
    /// The bytes of a PNG file, and the frame as it came with a bit turned in each half-pixel that differs.
    Png(Vec<u8>, Vec<u8>),
}

/// The picture of a frame at which something failed.
#[derive(Drop)]
pub struct Shot {
    /// The frame.
    pub frame: u32,
    /// Its picture.
    pub came: Vec<u8>,
    /// The golden picture, if there is one.
    pub expected: Option<Golden>,
}

/// How a case ended.
#[derive(Clone, Copy, PartialEq, Eq)]
pub enum End {
    /// All is as expected.
    Passed,
    /// Something is not.
    Failed,
    /// The case could not be run.
    Fault,
}

/// What is known of a case after its run.
#[derive(Drop)]
pub struct Verdict {
    /// Whether it could not be run.
    pub is_fault: bool,
    /// What is not as expected, or why the case could not be run: a line each.
    pub lines: Vec<String>,
    /// What else was done, a line each.
    pub notes: Vec<String>,
    /// The pictures that are kept: that of the first frame at which something failed, and those of frames whose golden PNG
    /// differs.
    pub shots: Vec<Shot>,
    /// The samples of the run, if they are kept.
    pub sound: Vec<u8>,
}

impl Verdict {
    ghost use Rattle.std.specs.Prelude.{◌≡◌, ◌+◌, false, true, vec_len, OnOk};
    ghost use Rattle.bench_checks.specs.Ends.{end_of};
    ghost use Rattle.bench_checks.specs.declared.verdict.End.TheVariants.{Passed};

    /// Returns the verdict on a case in which nothing is wrong so far.
    pub fn new(alloc: Global) -> Verdict
        ensures { end_of result ≡ Passed }
    {
        Verdict {
            is_fault: false,
            lines: Vec::new(alloc),
            notes: Vec::new(alloc),
            shots: Vec::new(alloc),
            sound: Vec::new(alloc),
        }
    }

    /// Returns the verdict on a case that could not be run, for this reason.
    pub fn fault(alloc: Global, reason: String) -> Result<Verdict, AllocError> {
        let mut verdict = Verdict::new(alloc);
        verdict.is_fault = true;
        verdict.lines.push(reason)?;
        Ok(verdict)
    }

    /// Notes what is not as expected.
    pub fn fail(&mut self, line: String) -> Result<(), AllocError>
        ensures { OnOk result (vec_len self.new.lines ≡ vec_len self.old.lines + 1) }
    {
        self.lines.push(line)?;
        Ok(())
    }

    /// How the case ended.
    pub fn end(&self) -> End
        ensures { result ≡ end_of self.now }
    {
        if self.is_fault {
            End::Fault
        } else if self.lines.is_empty() {
            End::Passed
        } else {
            End::Failed
        }
    }

    /// Drops the pictures and the sound.
    pub fn forget(&mut self)
        ensures { end_of self.new ≡ end_of self.old }
    {
        self.shots.clear();
        self.sound.clear();
    }
}
