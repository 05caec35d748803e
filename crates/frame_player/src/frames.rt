ghost use Rattle.std.specs.Prelude.{◌≡◌, ◌<◌, ◌≤◌, ℕ, List, length, min, IfOk, IfErr, IsTrue, IsFalse};
ghost use Rattle.snes_defs.specs.declared.ports.Side.{Side};
ghost use Rattle.memory_player.specs.Filled.{in_front};
ghost use Rattle.frame_player.specs.Told.{Told, MayReset, gone_on, kept_in, back_to, pressed_in, word_of};
ghost use Rattle.frame_player.specs.FrameBytes.{TakesOf};
ghost use Rattle.frame_player.specs.Frames.{IsFramesOf, FramePlayed, EndsFrame, samples_size};

use crate::begin::FRAME_BYTES;
use crate::console::Frames;
use crate::ends::FrameEnd;
use crate::moves::{go, go_back, keep_in, press};
use clock_ratio::{end_stamp_in, samples_before_in};
use memory_player::Counts;
use snes_defs::{Region, Side, Span};

/// How many bytes the samples of a frame have, the frames of the path counted from 0.
fn sound_bytes(region: Region, frame: u32) -> usize
    requires { frame < 36000 }
    ensures exact { result ≡ samples_size region frame }
    ensures few { result ≤ 2560 }
{
    let before = samples_before_in(region, end_stamp_in(region, frame));
    let after = samples_before_in(region, end_stamp_in(region, frame + 1));
    4 * (after - before) as usize
}

impl Frames {
    /// Plays a frame with these pads, and copies its picture and its samples to the front of both rooms.
    ///
    /// The low four bits of a pad count as 0, as in a script. At every other answer the console and both rooms are as
    /// they were.
    pub fn frame(
        &mut self,
        pad1: u16,
        pad2: u16,
        video: &mut [u8],
        sound: &mut [u8],
    ) -> Result<Counts, FrameEnd>
        requires told { (told : Told) × IsFramesOf told self.old }
        ensures played { (told : Told) → IsFramesOf told self.old
            → IfOk result (λ counts. FramePlayed told (word_of pad1) (word_of pad2)
            video.old sound.old video.new sound.new counts.video counts.sound) }
        ensures on { (told : Told) → IsFramesOf told self.old
            → IfOk result (λ counts. IsFramesOf (gone_on told (word_of pad1) (word_of pad2)) self.new) }
        ensures ends { (told : Told) → IsFramesOf told self.old
            → IfErr result (EndsFrame told (word_of pad1) (word_of pad2) video.old sound.old video.new sound.new) }
        ensures stays { (told : Told) → IsFramesOf told self.old → IfErr result (λ end. IsFramesOf told self.new) }
    {
        let frames = self.rewind.frames();
        if frames >= self.most {
            return Err(FrameEnd::Frames);
        }
        if video.len() < FRAME_BYTES {
            return Err(FrameEnd::TooShort(Side::Console));
        }
        if sound.len() < sound_bytes(self.region, frames) {
            return Err(FrameEnd::TooShort(Side::Sound));
        }
        let span = Span {
            count: 1,
            pad1: pad1 / 16 * 16,
            pad2: pad2 / 16 * 16,
        };
        go(
            &mut self.rewind,
            span,
            self.buffer.as_mut_slice(),
            &mut self.bytes,
        );
        Ok(self.hand_out(video, sound))
    }

    /// Copies the bytes of the last frame to the rooms of the caller.
    fn hand_out(&self, video: &mut [u8], sound: &mut [u8]) -> Counts
        requires picture { self.now.bytes.video.count ≤ min (length video.old) 244736 }
        requires samples { self.now.bytes.sound.count ≤ min (length sound.old) 2560 }
        ensures picture { (bytes : List ℕ) → TakesOf self.now.bytes Side.Console bytes
            → (video.new ≡ in_front bytes video.old) × (result.video ≡ length bytes) }
        ensures samples { (bytes : List ℕ) → TakesOf self.now.bytes Side.Sound bytes
            → (sound.new ≡ in_front bytes sound.old) × (result.sound ≡ length bytes) }
    {
        Counts {
            video: self.bytes.video.copy_to(video),
            sound: self.bytes.sound.copy_to(sound),
        }
    }

    /// Stores the present state in a slot. Returns false, and leaves all as it was, if there is no such slot.
    pub fn keep(&mut self, slot: u32) -> bool
        requires told { (told : Told) × IsFramesOf told self.old }
        ensures kept { (told : Told) → IsFramesOf told self.old → IsTrue result → (slot < length told.held)
            × IsFramesOf (kept_in told slot) self.new }
        ensures none { (told : Told) → IsFramesOf told self.old → IsFalse result → (length told.held ≤ slot)
            × IsFramesOf told self.new }
    {
        if slot >= u32::from(self.slots) {
            return false;
        }
        keep_in(&mut self.rewind, slot as u8);
        true
    }

    /// Returns to the state that a slot holds. Returns false, and leaves all as it was, if there is no such slot.
    pub fn back(&mut self, slot: u32) -> bool
        requires told { (told : Told) × IsFramesOf told self.old }
        ensures back { (told : Told) → IsFramesOf told self.old → IsTrue result → (slot < length told.held)
            × IsFramesOf (back_to told slot) self.new }
        ensures none { (told : Told) → IsFramesOf told self.old → IsFalse result → (length told.held ≤ slot)
            × IsFramesOf told self.new }
    {
        if slot >= u32::from(self.slots) {
            return false;
        }
        go_back(&mut self.rewind, slot as u8);
        true
    }

    /// Presses the reset button: the next frame begins with a reset. Returns false, and leaves all as it was, if no
    /// frame of the path was played, or if the button was just pressed.
    pub fn reset(&mut self) -> bool
        requires told { (told : Told) × IsFramesOf told self.old }
        ensures pressed { (told : Told) → IsFramesOf told self.old → IsTrue result
            → MayReset told × IsFramesOf (pressed_in told) self.new }
        ensures none { (told : Told) → IsFramesOf told self.old → IsFalse result
            → (MayReset told → ⊥) × IsFramesOf told self.new }
    {
        press(&mut self.rewind)
    }
}
