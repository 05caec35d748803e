// A step whose sample is also made for a stem: for some of the eight voices and the echo.
ghost use Rattle.std.specs.Prelude.{◌≡◌, ◌+◌, ◌*◌, ◌<◌, ◌≤◌, ◌^◌, ◌++◌, IsTrue, length};
ghost use Rattle.side_law.specs.Moves.{taken};
ghost use Rattle.audio_side.specs.Clock.{gone_on, stamp_now};
ghost use Rattle.audio_side.specs.Effect.{emitted, is_sampling, sample_bytes};
ghost use Rattle.audio_side.specs.Sound.{IsRunning, SoundState, StandsAt, hardware_before_end, sound_act, sound_next};
ghost use Rattle.audio_side.specs.Stem.{silenced, silenced_below, stem_emitted, stem_hardware, stem_voices};

use crate::hardware::{Hardware, high, low};
use crate::parts::Parts;
use crate::side::AudioSide;
use crate::step::{begin, finish};
use sdsp_voice::Voices;

/// Writes 0 to the two volume registers of a part, unless the stem has it.
#[tactic(auto, unfolding(crate::specs::Stem::silenced))]
fn silence(stem: u16, part: u8, left: u8, right: u8, voices: &mut Voices)
    requires part { part < 16 }
    requires left { left < 128 }
    requires right { right < 128 }
    ensures { voices.new ≡ silenced stem part left right voices.old }
{
    if (stem >> part) % 2 == 0 {
        voices.write(left, 0);
        voices.write(right, 0);
    }
}

/// Silences the voices that are not in a stem.
#[tactic(auto, unfolding(crate::specs::Stem::silenced_below))]
fn silence_voices(stem: u16, voices: &mut Voices)
    ensures { voices.new ≡ silenced_below stem 8 voices.old }
{
    // VOLL, VOLR
    silence(stem, 0, 0x00, 0x01, voices);
    silence(stem, 1, 0x10, 0x11, voices);
    silence(stem, 2, 0x20, 0x21, voices);
    silence(stem, 3, 0x30, 0x31, voices);
    silence(stem, 4, 0x40, 0x41, voices);
    silence(stem, 5, 0x50, 0x51, voices);
    silence(stem, 6, 0x60, 0x61, voices);
    silence(stem, 7, 0x70, 0x71, voices);
}

/// A copy of the voices and registers in which only the parts of a stem have their volumes.
#[tactic(auto, unfolding(crate::specs::Stem::stem_voices))]
fn voices_of(stem: u16, voices: &Voices) -> Voices
    ensures { result ≡ stem_voices stem voices.now }
{
    let mut voices = *voices;
    silence_voices(stem, &mut voices);
    // EVOLL, EVOLR
    silence(stem, 8, 0x2C, 0x3C, &mut voices);
    voices
}

impl Hardware {
    /// The four bytes of sample `s` for a stem. Changes nothing.
    #[tactic(auto, unfolding(crate::specs::Effect::sample_bytes))]
    fn stem_sample(&self, s: u64, stem: u16) -> [u8; 4]
        ensures { result ≡ sample_bytes s (stem_hardware stem self.now) }
    {
        let mut voices = voices_of(stem, &self.voices);
        let sums = voices.sample(self.ram.as_slice(), &self.table, s);
        let (left, right) = self.echo.peek(&voices, sums, self.ram.as_slice());
        [low(left), high(left), low(right), high(right)]
    }

    /// The four bytes for a stem of a cycle that makes a sample, and zeros in any other. Changes nothing.
    #[tactic(auto, using(crate::proofs::Stems::timed_sample), unfolding(crate::specs::Effect::emitted))]
    fn stem_bytes(&self, cycle: u64, stem: u16) -> [u8; 4]
        ensures { IsTrue (is_sampling cycle) → result ≡ emitted cycle (stem_hardware stem self.now) }
    {
        if cycle % 32 == 31 {
            self.stem_sample(cycle / 32, stem)
        } else {
            [0; 4]
        }
    }
}

impl Parts {
    ghost use Rattle.audio_side.specs.Parts.{value_of};

    /// Takes one step as `step` does, and returns the bytes that it would emit for a stem.
    fn step_apart(&mut self, got: u8, stem: u16) -> [u8; 4]
        requires room { length self.old.waiting.items + 4 ≤ self.old.waiting.capacity }
        requires early { stamp_now self.old.clock ≤ 2 ^ 62 }
        ensures next { (m : SoundState) → StandsAt (value_of self.old) m
            → StandsAt (value_of self.new) (sound_next m (taken (sound_act m) got)) }
        ensures emits { (m : SoundState) → StandsAt (value_of self.old) m
            → self.new.waiting.items ≡ self.old.waiting.items ++ emitted m.clock.cycle (hardware_before_end m) }
        ensures stem { (m : SoundState) → StandsAt (value_of self.old) m → IsTrue (is_sampling m.clock.cycle) → result ≡ stem_emitted stem m }
        ensures clock { self.new.clock ≡ gone_on self.old.clock }
        ensures capacity { self.new.waiting.capacity ≡ self.old.waiting.capacity }
        ensures few { length self.new.waiting.items ≤ length self.old.waiting.items + 4 }
        ensures runs { IsRunning self.old.spc → IsRunning self.new.spc }
    {
        let cycle = self.clock.number();
        begin(&mut self.spc, &mut self.hardware, &self.clock, got);
        let bytes = self.hardware.stem_bytes(cycle, stem);
        finish(&mut self.hardware, cycle, &mut self.waiting);
        self.clock.go_on();
        bytes
    }
}

impl AudioSide {
    /// Takes one step, in which a read of a port gets `got`, exactly as `Machine::step` does. If the step makes a
    /// sample, returns the four bytes that it would emit for a stem, else zeros.
    ///
    /// A stem is a set of parts: bits 0 to 7 are voices 0 to 7, bit 8 is the echo. Its bytes are those that come if the
    /// volumes of the other parts are 0 in this sample. The machine itself goes on with all of them.
    pub fn step_apart(&mut self, got: u8, stem: u16) -> [u8; 4]
        requires room { length self.old.waiting + 4 ≤ 4096 }
        requires early { stamp_now self.old.clock ≤ 2 ^ 62 }
        ensures next { (m : SoundState) → StandsAt self.old m → StandsAt self.new (sound_next m (taken (sound_act m) got)) }
        ensures emits { (m : SoundState) → StandsAt self.old m
            → self.new.waiting ≡ self.old.waiting ++ emitted m.clock.cycle (hardware_before_end m) }
        ensures stem { (m : SoundState) → StandsAt self.old m → IsTrue (is_sampling m.clock.cycle) → result ≡ stem_emitted stem m }
        ensures clock { self.new.clock ≡ gone_on self.old.clock }
        ensures emits_at_most { length self.new.waiting ≤ length self.old.waiting + 4 }
    {
        self.parts.step_apart(got, stem)
    }
}
