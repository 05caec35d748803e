ghost use Rattle.std.specs.Prelude.{◌≡◌, ◌≤◌, ◌++◌, ℕ, List, [], vec_len, IfOk, OnOk, OnErr};
ghost use Rattle.snes_defs.specs.declared.ports.Side.{Side};
ghost use Rattle.run_drive.specs.Run.{Adds, AddsSome};
ghost use Rattle.frame_sums.specs.Digests.{AreSummed, AreDigests, AreNew};

use crate::cuts::Cuts;
use crate::digests::Digests;
use crate::pieces::Pieces;
use shelf::Failed;
use run_drive::Sink;
use sha2::{Digest, Sha256};
use snes_defs::{NoMemory, Region, Side};
use std::alloc::Global;

/// The sums of what one side emits, while its bytes come.
#[derive(Drop)]
pub(crate) struct SideSums {
    pub(crate) cuts: Cuts,
    pub(crate) all: Sha256,
}

impl SideSums {
    /// Nothing taken yet. Takes all memory.
    fn new(alloc: Global, of: Pieces) -> Result<SideSums, NoMemory>
        requires { of.frames ≤ 36000 }
        ensures of { IfOk result (λ sums. sums.cuts.of ≡ of) }
        ensures none { IfOk result (λ sums. AreSummed sums []) }
    {
        let cuts = Cuts::new(alloc, of)?;
        Ok(SideSums {
            cuts,
            all: Sha256::new(),
        })
    }

    /// Takes more bytes of the side.
    fn take(&mut self, bytes: &[u8])
        ensures of { self.new.cuts.of ≡ self.old.cuts.of }
        ensures taken { (had : List ℕ) → AreSummed self.old had → AreSummed self.new (had ++ bytes.now) }
    {
        self.all.update(bytes);
        self.cuts.take(bytes);
    }

    /// The sums of all frames, and of all bytes. Where bytes of a frame did not come, its sum is that of those that did.
    fn finish(self) -> Digests
        ensures of { result.of ≡ self.cuts.of }
        ensures sums { (bytes : List ℕ) → AreSummed self bytes → AreDigests result bytes }
    {
        let SideSums { cuts, all } = self;
        let of = cuts.of;
        let rows = cuts.finish();
        Digests {
            of,
            rows,
            all: all.finalize(),
        }
    }
}

/// The sums of a run, while it runs: a sink that keeps no byte. It has 64 bytes of memory for each frame, which it takes when
/// it is made.
#[derive(Drop)]
pub struct FrameSums {
    pub(crate) video: SideSums,
    pub(crate) audio: SideSums,
}

impl FrameSums {
    /// Nothing taken yet, of a run of so many frames in this region.
    pub fn new(alloc: Global, region: Region, frames: u32) -> Result<FrameSums, NoMemory>
        requires { frames ≤ 36000 }
        ensures { IfOk result (λ sums. AreNew sums region frames) }
    {
        let side = Side::Console;
        let video = SideSums::new(
            alloc,
            Pieces {
                region,
                side,
                frames,
            },
        )?;
        let side = Side::Sound;
        let audio = SideSums::new(
            alloc,
            Pieces {
                region,
                side,
                frames,
            },
        )?;
        Ok(FrameSums { video, audio })
    }

    /// The sums of the pictures and of the samples, after the run.
    pub fn finish(self) -> (Digests, Digests)
        ensures video_of { result.0.of ≡ self.video.cuts.of }
        ensures audio_of { result.1.of ≡ self.audio.cuts.of }
        ensures video { (bytes : List ℕ) → AreSummed self.video bytes → AreDigests result.0 bytes }
        ensures audio { (bytes : List ℕ) → AreSummed self.audio bytes → AreDigests result.1 bytes }
    {
        let FrameSums { video, audio } = self;
        (video.finish(), audio.finish())
    }
}

impl Sink for FrameSums {
    ghost use Rattle.std.specs.Prelude.{◌≡◌, refl};
    ghost use Rattle.std.proofs.Common.{◌∙◌};
    ghost use Rattle.frame_sums.specs.Digests.{HasTaken};

    ghost holds = { HasTaken };

    // it is of the same frames
    ghost only_takes = { λ a b. (b.video.cuts.of ≡ a.video.cuts.of) × (b.audio.cuts.of ≡ a.audio.cuts.of) };

    ghost failed = { λ _ _ _. ⊥ };

    fn take(&mut self, side: Side, bytes: &[u8]) -> Result<(), Failed> {
        match side {
            Side::Console => self.video.take(bytes),
            Side::Sound => self.audio.take(bytes),
        }
        Ok(())
    }

    ghost takes_none = { λ _. (refl, refl) };

    ghost takes_more = { λ _ _ _ first then. (then.0 ∙ first.0, then.1 ∙ first.1) };

    ghost failed_since = { λ _ _ _ _ _ none. none };
}
