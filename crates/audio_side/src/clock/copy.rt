// A clock copied over another one, and one with a reset more.
ghost use Rattle.std.specs.Prelude.{◌≡◌, ◌<◌, ◌≤◌, length, max, OnOk, OnErr};
ghost use Rattle.audio_side.specs.Playing.{clock_with_room, clock_pressed};

use super::CycleClock;
use snes_defs::NoMemory;

impl CycleClock {
    /// Makes room for that many resets in all. Fails only if allocation fails; then nothing has changed.
    pub fn reserve(&mut self, resets: usize) -> Result<(), NoMemory>
        ensures ok { OnOk result (self.new ≡ clock_with_room self.old (max self.old.room resets)) }
        ensures err { OnErr result (self.new ≡ self.old) }
    {
        let room = self.room.max(resets);
        let Ok(()) = self.resets.reserve(room.saturating_sub(self.resets.len())) else {
            return Err(NoMemory);
        };
        self.room = room;
        Ok(())
    }

    /// Adds a frame that begins with a reset, above those that were there. It does not allocate.
    pub fn press(&mut self, frame: u32)
        requires room { length self.old.resets < self.old.room }
        ensures pressed { self.new ≡ clock_pressed self.old frame }
    {
        match self.resets.push(frame) {
            Ok(()) => {}
            Err(_) => unreachable!(),
        }
    }

    /// Copies this clock over the other one, which has room for the resets and keeps its room. It does not allocate.
    pub fn copy_into(&self, into: &mut CycleClock)
        requires room { length self.now.resets ≤ into.old.room }
        ensures same { into.new ≡ clock_with_room self.now into.old.room }
    {
        into.region = self.region;
        into.resets.truncate(0);
        match into.resets.extend_from_slice(self.resets.as_slice()) {
            Ok(()) => {}
            Err(_) => unreachable!(),
        }
        into.cycle = self.cycle;
        into.rate = self.rate;
        into.stamp = self.stamp;
    }
}
