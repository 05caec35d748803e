ghost use Rattle.std.specs.Prelude.{◌≡◌, ◌<◌, nat_lt, length, IfOk, OnOk, OnErr};
ghost use Rattle.run_drive.specs.Run.{Adds, AddsSome};
ghost use Rattle.memory_player.specs.Filled.{Handed, OnlyFront};

use shelf::Failed;
use snes_defs::NoMemory;
use std::alloc::Global;

/// A slice of the caller that is filled from its front.
#[derive(Drop)]
pub(crate) struct Filling {
    pub(crate) bytes: Vec<u8>,
    /// How many bytes were put into it; one more than its length if they did not fit.
    pub(crate) count: usize,
}

impl Filling {
    /// Returns a copy of what the slice holds, into which nothing was put yet. Fails only if allocation fails.
    pub(crate) fn over(alloc: Global, slice: &[u8]) -> Result<Filling, NoMemory>
        ensures now { IfOk result (λ f. f.bytes.items ≡ slice.now) }
        ensures count { IfOk result (λ f. f.count ≡ 0) }
    {
        let Ok(bytes) = Vec::from_slice(alloc, slice) else {
            return Err(NoMemory);
        };
        Ok(Filling { bytes, count: 0 })
    }

    /// Returns how many bytes were put into it.
    pub(crate) fn count(&self) -> usize
        ensures { result ≡ self.now.count }
    {
        self.count
    }

    /// Whether more bytes were put into it than fit.
    pub(crate) fn is_overfull(&self) -> bool
        ensures { result ≡ nat_lt (length self.now.bytes.items) self.now.count }
    {
        self.count > self.bytes.len()
    }

    /// Puts bytes behind those that were put before. Fails if and only if the slice is too short for them; then it is
    /// filled to its end.
    pub(crate) fn put(&mut self, bytes: &[u8]) -> Result<(), Failed>
        ensures whole { OnOk result (Adds (Handed self.old.bytes.items self.old.count) (Handed self.new.bytes.items self.new.count) bytes.now) }
        ensures some { OnErr result (AddsSome (Handed self.old.bytes.items self.old.count) (Handed self.new.bytes.items self.new.count) bytes.now) }
        ensures only { OnlyFront self.old.bytes.items self.new.bytes.items self.old.count self.new.count }
        ensures failed { OnErr result (length self.new.bytes.items < self.new.count) }
    {
        put_at(self.bytes.as_mut_slice(), &mut self.count, bytes)
    }
}

/// Puts bytes into a slice behind the `count` bytes that were put before.
#[tactic(auto, using(crate::proofs::Puts::puts))]
fn put_at(slice: &mut [u8], count: &mut usize, bytes: &[u8]) -> Result<(), Failed>
    ensures whole { OnOk result (Adds (Handed slice.old count.old) (Handed slice.new count.new) bytes.now) }
    ensures some { OnErr result (AddsSome (Handed slice.old count.old) (Handed slice.new count.new) bytes.now) }
    ensures only { OnlyFront slice.old slice.new count.old count.new }
    ensures failed { OnErr result (length slice.new < count.new) }
{
    let size = slice.len();
    let had = *count;
    if had > size {
        return Err(Failed);
    }
    let room = size - had;
    if bytes.len() > room {
        slice[had..].copy_from_slice(&bytes[..room]);
        *count = size + 1;
        return Err(Failed);
    }
    let end = had + bytes.len();
    slice[had..end].copy_from_slice(bytes);
    *count = end;
    Ok(())
}
