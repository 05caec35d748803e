// A whole sound side copied over another one, and one with a reset more.
ghost use Rattle.std.specs.Prelude.{◌≡◌, ◌<◌, ◌≤◌, length, max, OnOk, OnErr};
ghost use Rattle.audio_side.specs.Playing.{sound_with_room, audio_with_room, sound_pressed, audio_pressed};
ghost use Rattle.audio_side.specs.Sound.{SoundState, StandsAt};

use super::AudioSide;
use crate::hardware::Hardware;
use side_law::copy_waiting;
use snes_defs::NoMemory;

/// Copies this hardware over the other one, which has the same boot ROM and table.
fn copy_hardware(from: &Hardware, into: &mut Hardware)
    requires boot { from.now.boot ≡ into.old.boot }
    requires table { from.now.table ≡ into.old.table }
    ensures { into.new ≡ from.now }
{
    into.ram.as_mut_slice().copy_from_slice(from.ram.as_slice());
    into.voices = from.voices;
    into.echo = from.echo;
    into.timer0 = from.timer0;
    into.timer1 = from.timer1;
    into.timer2 = from.timer2;
    into.boot_seen = from.boot_seen;
    into.address = from.address;
}

impl AudioSide {
    /// Copies this sound side over the other one, with an instruction under way, the echo, the timers and the pending
    /// bytes.
    ///
    /// Both need the same boot ROM and table, and the other needs room for the resets, which it keeps. Nothing is
    /// allocated.
    #[tactic(auto, using(crate::proofs::Copies::copied))]
    pub fn copy_into(&self, into: &mut AudioSide)
        requires boot { self.now.hardware.boot ≡ into.old.hardware.boot }
        requires table { self.now.hardware.table ≡ into.old.hardware.table }
        requires room { length self.now.clock.resets ≤ into.old.clock.room }
        ensures same { into.new ≡ audio_with_room self.now into.old.clock.room }
        ensures stands { (m : SoundState) → StandsAt self.now m → StandsAt into.new (sound_with_room m into.old.clock.room) }
    {
        into.parts.spc = self.parts.spc;
        copy_hardware(&self.parts.hardware, &mut into.parts.hardware);
        self.parts.clock.copy_into(&mut into.parts.clock);
        copy_waiting(&self.parts.waiting, &mut into.parts.waiting);
    }

    /// Makes room for that many resets in all. Fails only if allocation fails; then nothing has changed.
    #[tactic(auto, using(crate::proofs::Copies::copied))]
    pub fn reserve(&mut self, resets: usize) -> Result<(), NoMemory>
        ensures ok { OnOk result (self.new ≡ audio_with_room self.old (max self.old.clock.room resets)) }
        ensures stands { OnOk result ((m : SoundState) → StandsAt self.old m → StandsAt self.new (sound_with_room m (max self.old.clock.room resets))) }
        ensures err { OnErr result (self.new ≡ self.old) }
    {
        self.parts.clock.reserve(resets)
    }

    /// Presses the reset button as a frame begins, above those frames in which it was pressed before. If the frame has
    /// not begun, that is the sound side of the script with this reset. It does not allocate.
    #[tactic(auto, using(crate::proofs::Copies::pressed))]
    pub fn press(&mut self, frame: u32)
        requires room { length self.old.clock.resets < self.old.clock.room }
        ensures pressed { self.new ≡ audio_pressed self.old frame }
        ensures stands { (m : SoundState) → StandsAt self.old m → StandsAt self.new (sound_pressed m frame) }
    {
        self.parts.clock.press(frame);
    }
}
