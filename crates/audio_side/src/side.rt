ghost use Rattle.std.specs.Prelude.{◌≡◌, ◌++◌, [], ◌∷◌, All, IfOk, OnOk, length, if◌then◌else◌};
ghost use Rattle.audio_side.specs.HardwareState.{table_of, zeros};
ghost use Rattle.audio_side.specs.Clock.{reset_frames};
ghost use Rattle.audio_side.specs.Effect.{loaded};
ghost use Rattle.audio_side.specs.Sound.{IsRunning, StandsAt, sound_start};

use crate::clock::CycleClock;
use crate::hardware::Hardware;
use crate::parts::Parts;
use crate::step::fresh;
use crate::timer::stopped_timer;
use circular_buffer::HeapCircularBuffer;
use sdsp_echo::Echo;
use sdsp_voice::Voices;
use side_law::{Machine, Ports, Stop};
use snes_defs::{Act, Job, NoMemory, Region, Spans, Table};
use spc700::Spc;
use std::alloc::Global;
use std::marker::Model;

mod copy;

/// The sound side of a console.
#[derive(Drop)]
pub struct AudioSide {
    pub(crate) parts: Parts,
}

impl Model for AudioSide {
    ghost use Rattle.std.specs.Prelude.{◌≡◌, ◌≤◌, length};
    ghost use Rattle.audio_side.specs.Sound.{AudioValue, IsRunning};

    ghost Value = { AudioValue };

    ghost view = { λ s. record { processor = s.parts.spc; hardware = s.parts.hardware; clock = s.parts.clock; waiting = s.parts.waiting.items } };

    ghost invariant = { λ s. IsRunning s.parts.spc × (s.parts.waiting.capacity ≡ 4096) × (length s.parts.waiting.items ≤ 4096) };
}

/// Puts a frame at the end of a list, if it has a reset.
fn add_frame(frames: &mut Vec<u32>, frame: u32, has_reset: bool) -> Result<(), NoMemory>
    ensures { OnOk result (frames.new.items ≡ frames.old.items ++ (if has_reset then frame ∷ [] else [])) }
{
    if has_reset {
        match frames.push(frame) {
            Ok(()) => Ok(()),
            Err(_) => Err(NoMemory),
        }
    } else {
        Ok(())
    }
}

/// The frames, from 0 to 36,000, that a script begins with a reset, in order.
#[tactic(auto, using(crate::proofs::Frames::no_frame, crate::proofs::Frames::one_more_frame))]
fn frames_with_reset(alloc: Global, script: &Spans) -> Result<Vec<u32>, NoMemory>
    ensures { IfOk result (λ v. v.items ≡ reset_frames script.now.resets 36001) }
{
    let mut frames = Vec::new(alloc);
    'frames: for frame in 0..36001 {
        add_frame(&mut frames, frame, script.resets(frame))?;
    }
    Ok(frames)
}

/// The bytes of RAM.
const RAM: usize = 65_536;

/// RAM of zeros.
#[tactic(auto, using(crate::proofs::Zeros::zeros_is))]
fn empty_ram(alloc: Global) -> Result<Vec<u8>, NoMemory>
    ensures zeros { IfOk result (λ ram. ram.items ≡ zeros) }
    ensures size { IfOk result (λ ram. length ram.items ≡ 65536) }
{
    zeroed(alloc, RAM)
}

/// A vector of `size` zeros.
fn zeroed(alloc: Global, size: usize) -> Result<Vec<u8>, NoMemory>
    ensures size { IfOk result (λ bytes. length bytes.items ≡ size) }
    ensures zeros { IfOk result (λ bytes. All (λ b. b ≡ 0) bytes.items) }
{
    match vec![in alloc; 0u8; size] {
        Ok(bytes) => Ok(bytes),
        Err(_) => Err(NoMemory),
    }
}

/// A copy of a table.
pub(crate) fn copied(table: &Table) -> Table
    ensures { result ≡ table_of table.now }
{
    let mut numbers = [0u16; 512];
    'numbers: for i in 0..512 {
        numbers[i] = table.at(i);
    }
    Table::of(numbers)
}

impl AudioSide {
    /// Returns the sound side of a job before its first cycle.
    ///
    /// Allocates RAM and the buffer of emitted bytes, and fails only if allocation fails.
    #[tactic(auto, unfolding(crate::specs::HardwareState::hardware_at_start))]
    pub fn new(alloc: Global, job: &Job) -> Result<AudioSide, NoMemory>
        ensures starts { IfOk result (λ s. StandsAt s
            (sound_start job.now.region job.now.script.profile job.now.script.resets job.now.boot job.now.table)) }
        ensures empty { IfOk result (λ s. s.waiting ≡ []) }
    {
        let resets = frames_with_reset(alloc, &job.script)?;
        let ram = empty_ram(alloc)?;
        let Ok(waiting) = HeapCircularBuffer::with_capacity(alloc, 4096) else {
            return Err(NoMemory);
        };
        let hardware = Hardware {
            boot: job.boot,
            table: copied(&job.table),
            ram,
            voices: Voices::new(job.script.profile()),
            echo: Echo::new(),
            timer0: stopped_timer(),
            timer1: stopped_timer(),
            timer2: stopped_timer(),
            boot_seen: true,
            address: 0,
        };
        let clock = CycleClock::new(job.region, resets);
        let spc = fresh(hardware.entry());
        Ok(AudioSide {
            parts: Parts {
                spc,
                hardware,
                clock,
                waiting,
            },
        })
    }

    /// The processor, to look at what it is about to do.
    pub fn processor(&self) -> &Spc
        ensures { result.now ≡ self.now.processor }
    {
        &self.parts.spc
    }

    /// The byte that a fetch or a read of an address gets now, if an incoming port has `got`.
    pub fn byte_at(&self, at: u16, got: u8) -> u8
        ensures { result ≡ loaded self.now.hardware at got }
    {
        self.parts.hardware.load(at, got)
    }

    /// Promises that the processor stands for some instruction.
    #[inline(always)]
    fn running(&self)
        ensures { IsRunning self.now.processor }
    {
        let _spc = self.parts.spc;
    }
}

impl Machine for AudioSide {
    ghost use Rattle.std.specs.Prelude.{◌*◌};
    ghost use Rattle.std.proofs.Common.{rules};
    ghost use Rattle.audio_side.specs.Clock.{stamp_now};
    ghost use Rattle.audio_side.specs.Sound.{SoundState, IsSound, sound_moves, StandsAt};
    ghost use Rattle.audio_side.specs.SoundLaws.{sound_is_lawful, region_stands, stamp_stands};

    const CAP: usize = 4096;

    const MOST: usize = 4;

    ghost CAP = { 4096 };

    ghost MOST = { 4 };

    ghost State = { SoundState };

    ghost valid = { IsSound };

    ghost moves = { sound_moves };

    ghost stands = { StandsAt };

    ghost region_of = { λ s. s.clock.region };

    ghost stamp_of = { λ s. stamp_now s.clock };

    ghost waiting = { λ s. s.waiting };

    #[inline(always)]
    fn region(&self) -> Region {
        self.parts.clock.region
    }

    #[tactic(auto, using(crate::specs::SoundLaws::stamp_stands))]
    #[inline(always)]
    fn stamp(&self) -> u64 {
        self.running();
        self.parts.clock.stamp()
    }

    #[inline(always)]
    fn act(&self) -> Act {
        self.parts.act()
    }

    #[inline(always)]
    fn step(&mut self, got: u8) {
        self.parts.step(got);
    }

    #[inline(always)]
    fn advance<P: Ports>(&mut self, until: u64, ports: &mut P) -> Stop {
        self.parts.advance(until, ports)
    }

    #[inline(always)]
    fn pending(&self) -> usize {
        self.parts.waiting.len()
    }

    #[inline(always)]
    fn pieces(&self) -> (&[u8], &[u8]) {
        self.parts.waiting.as_slices()
    }

    #[inline(always)]
    fn forget(&mut self) {
        self.parts.waiting.clear();
    }

    fn drain(&mut self, into: &mut [u8]) -> usize {
        self.parts.waiting.read_into(into)
    }

    ghost stands_valid = { region_stands };

    ghost stands_stamp = { stamp_stands };

    ghost lawful = { sound_is_lawful };
}
