ghost use Rattle.std.specs.Prelude.{◌≡◌, ◌+◌, ◌*◌, ◌/◌, ◌^◌, ◌<◌, ◌≤◌, ◌++◌, ℕ, [], IfOk, length, min, take, drop};
ghost use Rattle.snes_defs.specs.declared.region.Region.TheVariants.{Ntsc};
ghost use Rattle.audio_side.specs.Clock.{stamp_now};
ghost use Rattle.spc_player.specs.Play.{Playing, IsNear, after_steps, output, play_start, to_sample};
ghost use Rattle.spc_player.specs.Player.{IsPlaying, at, stamp_of, waiting_of};

use crate::image::SpcImage;
use audio_side::AudioSide;
use clock_ratio::SOUND_RATE;
use serial_console::{Bytes, lead_by};
use side_law::Machine;
use snes_defs::{NoMemory, Table};
use std::alloc::Global;
use std::marker::Model;

/// The stamps from one sample to the next: 32 cycles.
const SAMPLE_STAMPS: u64 = 32 * SOUND_RATE;

/// A sound side that plays by itself.
#[derive(Drop)]
pub struct Player {
    pub(crate) side: AudioSide,
    /// The bytes at the incoming ports.
    pub(crate) ports: [u8; 4],
}

impl Model for Player {
    ghost use Rattle.std.specs.Prelude.{◌≡◌};
    ghost use Rattle.snes_defs.specs.declared.region.Region.TheVariants.{Ntsc};
    ghost use Rattle.spc_player.specs.Player.{PlayerValue};

    ghost Value = { PlayerValue };

    ghost view = { λ p. record { side = p.side; ports = p.ports } };

    ghost invariant = { λ p. p.side.clock.region ≡ Ntsc };
}

/// The stamp at which the steps to the next sample have been taken.
#[inline(always)]
fn after_sample(stamp: u64) -> u64
    requires { stamp ≤ 2 ^ 61 }
    ensures later { stamp < result }
    ensures near { result ≤ stamp + 3780000 }
    ensures whole { (cycle : ℕ) → stamp ≡ 118125 * cycle → result ≡ 118125 * (32 * (cycle / 32) + 32) }
{
    (stamp / SAMPLE_STAMPS + 1) * SAMPLE_STAMPS
}

/// Runs a sound side's steps before a stamp against the bytes at its incoming ports, and returns those bytes as they are
/// then. The stamp is no later than the next sample.
#[inline(always)]
pub(crate) fn run_before(side: &mut AudioSide, ports: [u8; 4], end: u64) -> [u8; 4]
    requires ntsc { side.old.clock.region ≡ Ntsc }
    requires room { length side.old.waiting ≤ 512 }
    requires early { end ≤ 2 ^ 62 }
    requires near { (w : Playing) → IsPlaying (at side.old ports) w → (n : ℕ) × IsNear w end n }
    ensures next { (w : Playing) (n : ℕ) → IsPlaying (at side.old ports) w → IsNear w end n
        → IsPlaying (at side.new result) (after_steps w n) }
    ensures emits { (w : Playing) (n : ℕ) → IsPlaying (at side.old ports) w → IsNear w end n
        → side.new.waiting ≡ side.old.waiting ++ output w n }
    ensures stamp { stamp_now side.new.clock ≡ end }
    ensures few { length side.new.waiting ≤ length side.old.waiting + 4 }
    ensures ntsc { side.new.clock.region ≡ Ntsc }
{
    let _begun = side.stamp();
    let mut bytes = Bytes {
        incoming: ports,
        outgoing: [0; 4],
        first: u64::MAX,
        hold: u64::MAX,
        last: 0,
    };
    'steps: while side.stamp() < end {
        let _stop = lead_by(side, &mut bytes, end);
    }
    bytes.incoming
}

impl Player {
    /// The player of a sound file at its start, with an interpolation table.
    ///
    /// Allocates RAM and the buffer of emitted bytes, and fails only if allocation fails.
    pub fn new(alloc: Global, image: &SpcImage, table: &Table) -> Result<Player, NoMemory>
        ensures starts { IfOk result (λ p. IsPlaying p (play_start image.now table.now)) }
        ensures empty { IfOk result (λ p. waiting_of p ≡ []) }
        ensures at_zero { IfOk result (λ p. stamp_of p ≡ 0) }
    {
        let ram = image.ram();
        let side = AudioSide::of_parts(alloc, image.regs(), ram, image.dsp(), table)?;
        Ok(Player {
            side,
            ports: [ram[0xF4], ram[0xF5], ram[0xF6], ram[0xF7]],
        })
    }

    /// Takes all steps up to the next sample, and that one, which emits its four bytes.
    #[inline(never)]
    pub(crate) fn to_next_sample(&mut self)
        requires room { length (waiting_of self.old) ≤ 512 }
        requires early { stamp_of self.old ≤ 2 ^ 61 }
        ensures next { (w : Playing) → IsPlaying self.old w → IsPlaying self.new (after_steps w (to_sample w)) }
        ensures emits { (w : Playing) → IsPlaying self.old w
            → waiting_of self.new ≡ waiting_of self.old ++ output w (to_sample w) }
        ensures emits_at_most { length (waiting_of self.new) ≤ length (waiting_of self.old) + 4 }
        ensures late { stamp_of self.new ≤ stamp_of self.old + 3780000 }
    {
        let end = after_sample(self.side.stamp());
        self.ports = run_before(&mut self.side, self.ports, end);
    }

    /// Moves out the first of the pending bytes, as many as are pending or fit, and returns how many.
    pub fn drain(&mut self, into: &mut [u8]) -> usize
        ensures count { result ≡ min (length (waiting_of self.old)) (length into.old) }
        ensures moved { into.new ≡ take result (waiting_of self.old) ++ drop result into.old }
        ensures left { waiting_of self.new ≡ drop result (waiting_of self.old) }
        ensures same_place { (w : Playing) → IsPlaying self.old w → IsPlaying self.new w }
        ensures same_stamp { stamp_of self.new ≡ stamp_of self.old }
    {
        self.side.drain(into)
    }
}
