ghost use Rattle.std.specs.Prelude.{◌≡◌, ◌≤◌, ◌+◌, ◌^◌, ◌++◌, length};
ghost use Rattle.side_law.specs.Moves.{IsAtPorts, taken};
ghost use Rattle.audio_side.specs.Clock.{gone_on, stamp_now};
ghost use Rattle.audio_side.specs.Effect.{emitted};
ghost use Rattle.audio_side.specs.Sound.{IsRunning, SoundState, StandsAt, hardware_before_end, sound_act, sound_next};

use crate::clock::CycleClock;
use crate::hardware::Hardware;
use crate::step::{begin, finish, next_act};
use circular_buffer::HeapCircularBuffer;
use snes_defs::Act;
use spc700::Spc;

/// The parts of a sound side.
#[derive(Drop)]
pub struct Parts {
    /// The processor.
    pub spc: Spc,
    /// All of the sound side except its processor.
    pub hardware: Hardware,
    /// The clock, which counts cycles and knows the resets.
    pub clock: CycleClock,
    /// The emitted bytes that are pending.
    pub waiting: HeapCircularBuffer<u8>,
}

impl Parts {
    ghost use Rattle.audio_side.specs.Parts.{value_of};

    /// What the next step does at the ports.
    #[inline(always)]
    pub fn act(&self) -> Act
        ensures at_ports { IsAtPorts result }
        ensures value { (m : SoundState) → StandsAt (value_of self.now) m → sound_act m ≡ result }
    {
        next_act(&self.spc, &self.hardware, &self.clock)
    }

    /// Takes one step, in which a read of a port gets `got`.
    #[inline(always)]
    pub fn step(&mut self, got: u8)
        requires room { length self.old.waiting.items + 4 ≤ self.old.waiting.capacity }
        requires early { stamp_now self.old.clock ≤ 2 ^ 62 }
        ensures next { (m : SoundState) → StandsAt (value_of self.old) m
            → StandsAt (value_of self.new) (sound_next m (taken (sound_act m) got)) }
        ensures emits { (m : SoundState) → StandsAt (value_of self.old) m
            → self.new.waiting.items ≡ self.old.waiting.items ++ emitted m.clock.cycle (hardware_before_end m) }
        ensures clock { self.new.clock ≡ gone_on self.old.clock }
        ensures capacity { self.new.waiting.capacity ≡ self.old.waiting.capacity }
        ensures few { length self.new.waiting.items ≤ length self.old.waiting.items + 4 }
        ensures runs { IsRunning self.old.spc → IsRunning self.new.spc }
    {
        let cycle = self.clock.number();
        begin(&mut self.spc, &mut self.hardware, &self.clock, got);
        finish(&mut self.hardware, cycle, &mut self.waiting);
        self.clock.go_on();
    }
}
