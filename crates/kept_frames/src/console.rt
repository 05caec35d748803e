ghost use Rattle.std.specs.Prelude.{◌≡◌, ℕ, Bool, eqb};
ghost use Rattle.frame_player.specs.Told.{told_first, gone_on, kept_in, back_to, pressed_in, word_of};
ghost use Rattle.frame_player.specs.Frames.{IsFramesOf};
ghost use Rattle.kept_frames.specs.Left.{AsLeft};

use crate::kept::KeptFrames;
use crate::loose::Loose;
use frame_player::Frames;
use std::alloc::Global;

/// What C holds. It is zeros at first, and else what a call left.
///
/// It may go from one thread to another between calls (`console_is_send`).
#[repr(C)]
#[derive(Drop)]
pub struct SnesConsole {
    full: u32,
    kept: KeptFrames,
}

impl SnesConsole {
    /// Whether a state is there.
    pub fn is_full(&self) -> bool
        requires left { AsLeft self.now }
        ensures { result ≡ eqb self.now.kept.full 1 }
    {
        self.full == 1
    }

    /// Takes the state out.
    pub fn take(&mut self, alloc: Global) -> Box<Frames>
        requires full { self.old.kept.full ≡ 1 }
        ensures left { AsLeft self.new }
        ensures empty { self.new.kept.full ≡ 0 }
        ensures told { self.new.kept.told ≡ self.old.kept.told }
        ensures frames { IsFramesOf self.old.kept.told result.value }
    {
        self.full = 0;
        self.kept.take().into_box(alloc)
    }

    /// Puts a state in. It is the one of what was told.
    pub fn fill(&mut self, frames: Box<Frames>)
        requires empty { self.old.kept.full ≡ 0 }
        requires frames { IsFramesOf self.old.kept.told frames.value }
        ensures left { AsLeft self.new }
        ensures full { self.new.kept.full ≡ 1 }
        ensures told { self.new.kept.told ≡ self.old.kept.told }
    {
        self.full = 1;
        self.kept.fill(Loose::of(frames));
    }

    /// Tells the inputs, and no frame yet.
    pub fn tell_begun(
        &mut self,
        cart: &[u8],
        boot: &[u8],
        table: &[u8],
        region: u32,
        most: u32,
        slots: u32,
    )
        requires left { AsLeft self.old }
        requires empty { self.old.kept.full ≡ 0 }
        ensures left { AsLeft self.new }
        ensures empty { self.new.kept.full ≡ 0 }
        ensures told { self.new.kept.told ≡ told_first cart.now boot.now table.now region most slots }
    {
        self.kept.tell(&(cart, boot, table, region, most, slots));
    }

    /// Tells one frame more.
    pub fn tell_frame(&mut self, pad1: u16, pad2: u16)
        requires left { AsLeft self.old }
        requires empty { self.old.kept.full ≡ 0 }
        ensures left { AsLeft self.new }
        ensures empty { self.new.kept.full ≡ 0 }
        ensures told { self.new.kept.told ≡ gone_on self.old.kept.told (word_of pad1) (word_of pad2) }
    {
        self.kept.tell(&(pad1, pad2));
    }

    /// Tells that the reset button is pressed.
    pub fn tell_reset(&mut self)
        requires left { AsLeft self.old }
        requires empty { self.old.kept.full ≡ 0 }
        ensures left { AsLeft self.new }
        ensures empty { self.new.kept.full ≡ 0 }
        ensures told { self.new.kept.told ≡ pressed_in self.old.kept.told }
    {
        self.kept.tell(&true);
    }

    /// Tells that a slot holds the path.
    pub fn tell_kept(&mut self, slot: u32)
        requires left { AsLeft self.old }
        requires empty { self.old.kept.full ≡ 0 }
        ensures left { AsLeft self.new }
        ensures empty { self.new.kept.full ≡ 0 }
        ensures told { self.new.kept.told ≡ kept_in self.old.kept.told slot }
    {
        self.kept.tell(&slot);
    }

    /// Tells that the path is the one that a slot holds.
    pub fn tell_back(&mut self, slot: u32)
        requires left { AsLeft self.old }
        requires empty { self.old.kept.full ≡ 0 }
        ensures left { AsLeft self.new }
        ensures empty { self.new.kept.full ≡ 0 }
        ensures told { self.new.kept.told ≡ back_to self.old.kept.told slot }
    {
        self.kept.tell(&slot);
    }
}

/// Accepts only a type whose values may go to another thread.
fn needs_send<T: Send>() {}

/// Does nothing. The crate is accepted only if a console may go to another thread.
fn console_is_send() {
    needs_send::<SnesConsole>();
}
