ghost use Rattle.std.specs.Prelude.{◌≡◌, ℕ, ◌<◌, ◌≤◌, [], true, false, length, take, OnOk, OnErr, IfErr};
ghost use Rattle.std.specs.Io.KnownBytes.{Appends as AppendsKnown, Keeps};
ghost use Rattle.file_shelf.specs.Given.{given_to, held_after};

use crate::cause::Cause;
use crate::gathered::Gathered;
use std::io::Write;

/// A file that is written, and the bytes given to it that are not yet written.
///
/// A frame comes as about 240 rows and 530 samples, each in a put of its own. A system call for each would take a
/// tenth to a fifth of a run's time. After a fault nothing more is written or taken. What was not written stays
/// gathered, as the measure of what the file lacks.
pub(crate) struct Buffered<F: Write> {
    file: F,
    gathered: Gathered,
    failed: bool,
}

impl<F: Write + Drop> Buffered<F> {
    /// A file that was given nothing yet.
    pub(crate) fn new(file: F) -> Buffered<F>
        ensures file { result.file ≡ file }
        ensures empty { result.gathered ≡ [] }
        ensures open { result.failed ≡ false }
    {
        Buffered {
            file,
            gathered: Gathered::new(),
            failed: false,
        }
    }

    /// Writes the gathered bytes. If that fails, those that were not written stay gathered.
    #[tactic(auto, using(crate::proofs::EdgeLemmas::written_first))]
    pub(crate) fn flush(&mut self) -> Result<(), Cause>
        ensures kept { Keeps (given_to F.contents self.old) (given_to F.contents self.new) }
        ensures open { OnOk result (self.old.failed ≡ false) }
        ensures open_still { OnOk result (self.new.failed ≡ false) }
        ensures empty { OnOk result (self.new.gathered ≡ []) }
        ensures closed { OnErr result (self.new.failed ≡ true) }
        ensures less { length self.new.gathered ≤ length self.old.gathered }
    {
        if self.failed {
            return Err(Cause::Closed);
        }
        match write_whole(&mut self.file, self.gathered.as_slice()) {
            Ok(()) => {
                self.gathered.clear();
                Ok(())
            }
            Err(stopped) => {
                self.gathered.forget_first(stopped.count);
                self.failed = true;
                Err(stopped.cause)
            }
        }
    }

    /// Gives the file these bytes, after those that it was given before.
    #[tactic(auto, using(crate::proofs::EdgeLemmas::given_some))]
    pub(crate) fn put(&mut self, bytes: &[u8]) -> Result<(), Cause>
        ensures whole { OnOk result (AppendsKnown (given_to F.contents self.old) (given_to F.contents self.new) bytes.now) }
        ensures some { OnErr result ((count : ℕ) × AppendsKnown (given_to F.contents self.old) (given_to F.contents self.new) (take count bytes.now)) }
        ensures open { OnOk result (self.old.failed ≡ false) }
        ensures open_still { OnOk result (self.new.failed ≡ false) }
        ensures closed { OnErr result (self.new.failed ≡ true) }
        ensures unwritten { OnOk result (length self.new.gathered ≡ held_after (length self.old.gathered) (length bytes.now)) }
        ensures less { OnErr result (length self.new.gathered ≤ length self.old.gathered) }
    {
        if self.failed {
            return Err(Cause::Closed);
        }
        let Err(_) = self.gathered.add(bytes) else {
            return Ok(());
        };
        self.flush()?;
        let Err(_) = self.gathered.add(bytes) else {
            return Ok(());
        };
        if let Err(stopped) = write_whole(&mut self.file, bytes) {
            self.failed = true;
            return Err(stopped.cause);
        }
        Ok(())
    }
}

impl<F: Write + Drop> Drop for Buffered<F> {
    /// Writes what is gathered, so that a run that ends early leaves all that it had put.
    fn drop(mut self) {
        let _ = self.flush();
        let Buffered {
            file: _file,
            gathered: _,
            failed: _,
        } = self;
    }
}

/// How a write stopped: how many bytes were written, and why no more.
#[derive(Clone, Copy)]
pub(crate) struct Stopped {
    pub(crate) count: usize,
    pub(crate) cause: Cause,
}

/// Writes all these bytes, by as many writes as needed. A write that takes nothing is a fault.
pub(crate) fn write_whole<W: Write>(file: &mut W, bytes: &[u8]) -> Result<(), Stopped>
    ensures whole { OnOk result (AppendsKnown (W.contents file.old) (W.contents file.new) bytes.now) }
    ensures first { IfErr result (λ stopped. AppendsKnown (W.contents file.old) (W.contents file.new) (take stopped.count bytes.now)) }
    ensures within { IfErr result (λ stopped. stopped.count ≤ length bytes.now) }
{
    let mut count = 0;
    while count < bytes.len() {
        let cause = match file.write(&bytes[count..]) {
            Ok(0) => Cause::TookNothing,
            Ok(more) => {
                count += more;
                continue;
            }
            Err(error) => Cause::System(error.kind()),
        };
        return Err(Stopped { count, cause });
    }
    Ok(())
}
