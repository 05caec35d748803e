// A sound side that begins with registers, RAM and the bytes of the S-DSP.
ghost use Rattle.std.specs.Prelude.{◌≡◌, [], IfOk, drop, length};
ghost use Rattle.spc700.specs.Instruction.{between};
ghost use Rattle.spc700.specs.Stands.{Stands};
ghost use Rattle.audio_side.specs.FromParts.{hardware_from, sound_from, timer_from, voices_from};
ghost use Rattle.audio_side.specs.Sound.{IsRunning, StandsAt};

use crate::clock::CycleClock;
use crate::hardware::{Hardware, is_on};
use crate::parts::Parts;
use crate::side::{AudioSide, copied};
use crate::timer::Timer;
use circular_buffer::HeapCircularBuffer;
use sdsp_echo::Echo;
use sdsp_voice::Voices;
use snes_defs::{NoMemory, Profile, Region, Table};
use spc700::{Spc, SpcRegs};
use std::alloc::Global;

/// 4C KON: each set bit starts a voice.
const KON: u8 = 0x4C;

/// The S-DSP after its bytes were written in order, KON last.
#[tactic(auto, using(crate::proofs::FromParts::no_register, crate::proofs::FromParts::one_more_register, crate::proofs::FromParts::keys_wait), unfolding(crate::specs::FromParts::voices_from))]
fn written(dsp: &[u8]) -> Voices
    requires { length dsp.now ≡ 128 }
    ensures { result ≡ voices_from dsp.now }
{
    let mut voices = Voices::new(Profile::First);
    'registers: for reg in 0..128u8 {
        if reg != KON {
            voices.write(reg, dsp[reg as usize]);
        }
    }
    voices.write(KON, dsp[KON as usize]);
    voices
}

/// A timer that has had no tick since its counter last advanced.
#[tactic(auto, unfolding(crate::specs::FromParts::timer_from))]
fn timer(on: bool, target: u8, count: u8) -> Timer
    ensures { result ≡ timer_from on target count }
{
    Timer {
        on,
        target,
        stage: 0,
        counter: count % 16,
    }
}

/// The last 64 bytes of RAM, where the boot ROM is.
fn boot_of(ram: &[u8]) -> [u8; 64]
    requires { length ram.now ≡ 65536 }
    ensures { result ≡ drop 0xFFC0 ram.now }
{
    let Ok(boot) = <[u8; 64]>::try_from(&ram[0xFFC0..]) else {
        unreachable!()
    };
    boot
}

/// The hardware that begins with this RAM, these bytes of the S-DSP and this table.
#[tactic(auto, unfolding(crate::specs::FromParts::hardware_from))]
fn hardware_of(alloc: Global, ram: &[u8], dsp: &[u8], table: &Table) -> Result<Hardware, NoMemory>
    requires ram { length ram.now ≡ 65536 }
    requires dsp { length dsp.now ≡ 128 }
    ensures { IfOk result (λ hardware. hardware ≡ hardware_from ram.now dsp.now table.now) }
{
    let Ok(kept) = Vec::from_slice(alloc, ram) else {
        return Err(NoMemory);
    };
    let control = ram[0xF1];
    Ok(Hardware {
        boot: boot_of(ram),
        table: copied(table),
        ram: kept,
        voices: written(dsp),
        echo: Echo::new(),
        timer0: timer(is_on(control, 0), ram[0xFA], ram[0xFD]),
        timer1: timer(is_on(control, 1), ram[0xFB], ram[0xFE]),
        timer2: timer(is_on(control, 2), ram[0xFC], ram[0xFF]),
        boot_seen: is_on(control, 7),
        address: ram[0xF2],
    })
}

/// A processor before an opcode fetch.
fn before_fetch(regs: SpcRegs) -> Spc
    ensures stands { Stands result (between regs) }
    ensures runs { IsRunning result }
{
    Spc::at(regs)
}

impl AudioSide {
    /// Returns a sound side that begins with registers, 65,536 bytes of RAM and the 128 bytes of the S-DSP.
    ///
    /// It is an NTSC machine of the first profile before cycle 0 that is never reset, with its processor before an
    /// opcode fetch. The bytes of RAM under F1 (without bits 4 and 5), F2 and FA to FF are what those registers hold.
    /// The boot ROM is what RAM has at FFC0 to FFFF.
    ///
    /// Allocates RAM and the buffer of emitted bytes, and fails only if allocation fails.
    pub fn of_parts(
        alloc: Global,
        regs: SpcRegs,
        ram: &[u8],
        dsp: &[u8],
        table: &Table,
    ) -> Result<AudioSide, NoMemory>
        requires ram { length ram.now ≡ 65536 }
        requires dsp { length dsp.now ≡ 128 }
        ensures starts { IfOk result (λ s. StandsAt s (sound_from regs ram.now dsp.now table.now)) }
        ensures empty { IfOk result (λ s. s.waiting ≡ []) }
    {
        let hardware = hardware_of(alloc, ram, dsp, table)?;
        let Ok(waiting) = HeapCircularBuffer::with_capacity(alloc, 4096) else {
            return Err(NoMemory);
        };
        let clock = CycleClock::new(Region::Ntsc, Vec::new(alloc));
        Ok(AudioSide {
            parts: Parts {
                spc: before_fetch(regs),
                hardware,
                clock,
                waiting,
            },
        })
    }
}
