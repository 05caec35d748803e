// A sink for the bytes of one frame. It takes all bytes, and keeps those that fit.
ghost use Rattle.std.specs.Prelude.{◌≡◌, ◌≢◌, ◌≤◌, ℕ, List, [], length, OnOk, OnErr, IfOk};
ghost use Rattle.snes_defs.specs.declared.ports.Side.{Side};
ghost use Rattle.run_drive.specs.Run.{Adds, AddsSome};
ghost use Rattle.frame_player.specs.FrameBytes.{Takes, TakesOf, SameRooms};
ghost use Rattle.memory_player.specs.Filled.{in_front};
ghost use Rattle.frame_player.specs.FrameLaws.{rooms_stay, rooms_then};

use run_drive::Sink;
use shelf::Failed;
use snes_defs::{NoMemory, Side};
use std::alloc::Global;

/// Room for the bytes of one side of a frame.
#[derive(Drop)]
pub(crate) struct SideBytes {
    pub(crate) bytes: Vec<u8>,
    /// How many bytes were put into the room; one more than its size if they did not fit.
    pub(crate) count: usize,
}

impl SideBytes {
    /// Returns room for so many bytes. Fails only if allocation fails.
    pub(crate) fn with_room(alloc: Global, size: usize) -> Result<SideBytes, NoMemory>
        ensures size { IfOk result (λ room. length room.bytes.items ≡ size) }
    {
        let Ok(bytes) = vec![in alloc; 0u8; size] else {
            return Err(NoMemory);
        };
        Ok(SideBytes { bytes, count: 0 })
    }

    /// Copies the bytes to the front of a room of the caller, and returns how many they are.
    #[tactic(auto, using(crate::proofs::Puts::copies))]
    pub(crate) fn copy_to(&self, room: &mut [u8]) -> usize
        requires whole { self.now.count ≤ length self.now.bytes.items }
        requires fits { self.now.count ≤ length room.old }
        ensures front { (bytes : List ℕ) → Takes self.now.bytes.items self.now.count bytes
            → room.new ≡ in_front bytes room.old }
        ensures count { (bytes : List ℕ) → Takes self.now.bytes.items self.now.count bytes → result ≡ length bytes }
    {
        let count = self.count;
        room[..count].copy_from_slice(&self.bytes.as_slice()[..count]);
        count
    }

    /// Forgets the bytes.
    fn clear(&mut self)
        ensures count { self.new.count ≡ 0 }
        ensures same { self.new.bytes.items ≡ self.old.bytes.items }
    {
        self.count = 0;
    }
}

/// Puts bytes into a room behind the `count` bytes that were put before, as far as they fit.
#[tactic(auto, using(crate::proofs::Puts::puts))]
fn put_more(room: &mut [u8], count: &mut usize, bytes: &[u8])
    ensures adds { Adds (Takes room.old count.old) (Takes room.new count.new) bytes.now }
    ensures size { length room.new ≡ length room.old }
{
    let size = room.len();
    let had = *count;
    if had > size {
        return;
    }
    let left = size - had;
    if bytes.len() > left {
        room[had..].copy_from_slice(&bytes[..left]);
        *count = size + 1;
        return;
    }
    let end = had + bytes.len();
    room[had..end].copy_from_slice(bytes);
    *count = end;
}

/// Room for a frame: its picture, and its samples.
#[derive(Drop)]
pub(crate) struct FrameBytes {
    pub(crate) video: SideBytes,
    pub(crate) sound: SideBytes,
}

impl FrameBytes {
    /// Forgets the bytes of both sides.
    pub(crate) fn clear(&mut self)
        ensures video { self.new.video.count ≡ 0 }
        ensures sound { self.new.sound.count ≡ 0 }
        ensures rooms { SameRooms self.old self.new }
    {
        self.video.clear();
        self.sound.clear();
    }
}

impl Sink for FrameBytes {
    ghost holds = { TakesOf };

    ghost only_takes = { SameRooms };

    ghost failed = { λ a b side. ⊥ };

    #[inline(always)]
    #[tactic(auto, using(crate::proofs::Puts::sides))]
    fn take(&mut self, side: Side, bytes: &[u8]) -> Result<(), Failed> {
        match side {
            Side::Console => put_more(
                self.video.bytes.as_mut_slice(),
                &mut self.video.count,
                bytes,
            ),
            Side::Sound => put_more(
                self.sound.bytes.as_mut_slice(),
                &mut self.sound.count,
                bytes,
            ),
        }
        Ok(())
    }

    ghost takes_none = { rooms_stay };

    ghost takes_more = { rooms_then };

    ghost failed_since = { λ a b c side only never. never };
}
