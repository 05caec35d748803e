// A sink of two slices of the caller: the console's bytes go to the first, the sound side's to the second.
ghost use Rattle.std.specs.Prelude.{◌≡◌, ◌≢◌, ◌≤◌, ℕ, List, length, OnOk, OnErr, IfOk, IfErr};
ghost use Rattle.snes_defs.specs.declared.ports.Side.{Side};
ghost use Rattle.run_drive.specs.Run.{Adds, AddsSome};
ghost use Rattle.memory_player.specs.Slices.{HoldsIn, OnlyFills, IsOverfull, ShortIn};
ghost use Rattle.memory_player.specs.SliceLaws.{fills_none, fills_more};

use crate::filling::Filling;
use crate::inputs::End;
use run_drive::Sink;
use shelf::Failed;
use snes_defs::Side;

/// The number of bytes of output at the front of each slice.
#[derive(Clone, Copy)]
pub struct Counts {
    /// Bytes of video.
    pub video: usize,
    /// Bytes of sound.
    pub sound: usize,
}

/// The slices for video and sound.
#[derive(Drop)]
pub(crate) struct Slices {
    pub(crate) video: Filling,
    pub(crate) sound: Filling,
}

impl Slices {
    /// Returns the number of bytes at the front of each slice. Fails if and only if one was given more than fits.
    pub(crate) fn counts(&self) -> Result<Counts, End>
        ensures video { IfOk result (λ counts. counts.video ≡ self.now.video.count) }
        ensures sound { IfOk result (λ counts. counts.sound ≡ self.now.sound.count) }
        ensures video_fits { OnOk result (self.now.video.count ≤ length self.now.video.bytes.items) }
        ensures sound_fits { OnOk result (self.now.sound.count ≤ length self.now.sound.bytes.items) }
        ensures short { IfErr result (ShortIn self.now) }
    {
        if self.video.is_overfull() {
            return Err(End::TooShort(Side::Console));
        }
        if self.sound.is_overfull() {
            return Err(End::TooShort(Side::Sound));
        }
        Ok(Counts {
            video: self.video.count(),
            sound: self.sound.count(),
        })
    }
}

impl Sink for Slices {
    ghost holds = { HoldsIn };

    ghost only_takes = { OnlyFills };

    ghost failed = { λ a b side. IsOverfull b side };

    #[inline(always)]
    #[tactic(auto, using(crate::proofs::Takes::takes))]
    fn take(&mut self, side: Side, bytes: &[u8]) -> Result<(), Failed> {
        match side {
            Side::Console => self.video.put(bytes),
            Side::Sound => self.sound.put(bytes),
        }
    }

    ghost takes_none = { fills_none };

    ghost takes_more = { fills_more };

    ghost failed_since = { λ a b c side first then. then };
}
