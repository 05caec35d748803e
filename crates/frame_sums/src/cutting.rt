ghost use Rattle.std.specs.Prelude.{◌≡◌, ◌≤◌, ◌<◌, ◌+◌, ◌++◌, ℕ, List, [], length, vec_len, IfOk};
ghost use Rattle.frame_sums.specs.Digests.{AreCut, AreRows};

use crate::cuts::Cuts;
use crate::pieces::Pieces;
use sha2::{Digest, Sha256};
use snes_defs::NoMemory;
use std::alloc::Global;

impl Cuts {
    /// Nothing taken yet. Takes all memory: 32 bytes for each frame.
    pub(crate) fn new(alloc: Global, of: Pieces) -> Result<Cuts, NoMemory>
        requires { of.frames ≤ 36000 }
        ensures of { IfOk result (λ cuts. cuts.of ≡ of) }
        ensures none { IfOk result (λ cuts. AreCut cuts []) }
    {
        let Ok(rows) = vec![in alloc; [0u8; 32]; of.frames as usize] else {
            return Err(NoMemory);
        };
        let left = of.size(0);
        Ok(Cuts {
            of,
            rows,
            done: 0,
            left,
            part: Sha256::new(),
        })
    }

    /// Takes more bytes of the side. Those behind the last frame are in no frame.
    pub(crate) fn take(&mut self, bytes: &[u8])
        ensures of { self.new.of ≡ self.old.of }
        ensures taken { (had : List ℕ) → AreCut self.old had → AreCut self.new (had ++ bytes.now) }
    {
        let mut rest = bytes;
        'cutting: while self.done < self.rows.len() {
            if rest.len() == 0 {
                return;
            }
            let count = self.left.min(rest.len() as u64) as usize;
            let (first, more) = split(rest, count);
            self.take_part(first);
            rest = more;
        }
    }

    /// Takes bytes of the frame under way, which is over if no more are to come.
    fn take_part(&mut self, bytes: &[u8])
        requires under_way { self.old.done < self.old.of.frames }
        requires few { length bytes.now ≤ self.old.left }
        requires some { length bytes.now ≡ 0 → self.old.left ≡ 0 }
        ensures of { self.new.of ≡ self.old.of }
        ensures done { self.old.done ≤ self.new.done }
        ensures goes_on { length bytes.now ≡ 0 → self.old.done < self.new.done }
        ensures taken { (had : List ℕ) → AreCut self.old had → AreCut self.new (had ++ bytes.now) }
    {
        self.take_some(bytes);
        if self.left == 0 {
            self.close();
        }
    }

    /// Takes bytes of the frame under way.
    fn take_some(&mut self, bytes: &[u8])
        requires under_way { self.old.done < self.old.of.frames }
        requires few { length bytes.now ≤ self.old.left }
        ensures of { self.new.of ≡ self.old.of }
        ensures done { self.new.done ≡ self.old.done }
        ensures left { self.new.left + length bytes.now ≡ self.old.left }
        ensures taken { (had : List ℕ) → AreCut self.old had → AreCut self.new (had ++ bytes.now) }
    {
        self.part.update(bytes);
        self.left -= bytes.len() as u64;
    }

    /// The frame under way is over.
    fn close(&mut self)
        requires under_way { self.old.done < self.old.of.frames }
        requires whole { self.old.left ≡ 0 }
        ensures of { self.new.of ≡ self.old.of }
        ensures done { self.new.done ≡ self.old.done + 1 }
        ensures closed { (had : List ℕ) → AreCut self.old had → AreCut self.new had }
    {
        self.rows[self.done] = self.part.finalize_reset();
        self.done += 1;
        if self.done < self.rows.len() {
            self.left = self.of.size(self.done as u32);
        }
    }

    /// The sums of all frames. Where bytes of a frame did not come, its sum is that of those that did.
    pub(crate) fn finish(self) -> Vec<[u8; 32]>
        ensures size { vec_len result ≡ self.of.frames }
        ensures rows { (bytes : List ℕ) → AreCut self bytes → AreRows self.of bytes result.items }
    {
        let Cuts {
            of: _,
            mut rows,
            mut done,
            left: _,
            mut part,
        } = self;
        'finishing: while done < rows.len() {
            rows[done] = part.finalize_reset();
            done += 1;
        }
        rows
    }
}

/// The first bytes, so many, and the others.
fn split(bytes: &[u8], count: usize) -> (&[u8], &[u8])
    requires { count ≤ length bytes.now }
    ensures whole { result.0.now ++ result.1.now ≡ bytes.now }
    ensures front { length result.0.now ≡ count }
    ensures back { length result.1.now + count ≡ length bytes.now }
{
    bytes.split_at(count)
}
