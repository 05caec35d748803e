ghost use Rattle.std.specs.Prelude.{◌≡◌, ℕ};
ghost use Rattle.frame_player.specs.Told.{Told};
ghost use Rattle.kept_frames.specs.Coded.{coded_told};
ghost use Rattle.frame_player.specs.Frames.{IsFramesOf};

use crate::loose::Loose;
use frame_player::Frames;
use std::marker::Model;

/// A state on the heap, or none, behind a pointer to bytes.
#[repr(C)]
#[derive(Drop)]
pub struct KeptFrames {
    at: *mut u8,
    pub ghost full: { ℕ },
    pub ghost told: { Told } by { coded_told },
}

impl Model for KeptFrames {
    ghost use Rattle.kept_frames.specs.Kept.{kept};

    ghost also_owns = { λ h. kept h.full h.at h.told };
}

// The state on the heap belongs to no thread, and any thread may free its block.
unsafe impl Send for KeptFrames {}

impl KeptFrames {
    /// Takes the state that lies there. Then none does, and what was told stays.
    pub(crate) fn take(&mut self) -> Loose<Frames>
        requires full { self.old.full ≡ 1 }
        ensures empty { self.new.full ≡ 0 }
        ensures told { self.new.told ≡ self.old.told }
        ensures frames { IsFramesOf self.old.told result.value }
    {
        Loose {
            at: self.at as *mut Frames,
        }
    }

    /// Puts a state there. It is the one of what was told.
    pub(crate) fn fill(&mut self, frames: Loose<Frames>)
        requires empty { self.old.full ≡ 0 }
        requires frames { IsFramesOf self.old.told frames.value }
        ensures full { self.new.full ≡ 1 }
        ensures told { self.new.told ≡ self.old.told }
    {
        let Loose { at } = frames;
        self.at = at as *mut u8;
    }

    /// Says what is told, while no state lies there. It does nothing: proofs pick what it says by what `_by` refers to.
    pub(crate) fn tell<T>(&mut self, _by: &T)
        ghost told: { Told }
        requires empty { self.old.full ≡ 0 }
        ensures empty { self.new.full ≡ 0 }
        ensures told { self.new.told ≡ told }
    {}
}
