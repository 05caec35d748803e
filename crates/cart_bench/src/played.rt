//! The run of a job, frame by frame: the serial console of `snes`, stopped at the end of each frame.

use anyhow::{Result, bail};
use audio_side::AudioSide;
use clock_ratio::{console_first, end_stamp_in};
use console_machine::ConsoleSide;
use cpu_tables::Access;
use serial_console::Serial;
use side_law::Machine;
use snes_defs::{Job, MOST_FRAMES, NoMemory, Region};
use std::alloc::{AllocError, Global};

/// The last stamp at which a step may begin.
const LAST: u64 = 1 << 62;

/// The bytes of the buffer that emitted bytes are taken through: as many as can be pending in a side.
const BUFFER: usize = 65_536;

/// What a frame emitted.
#[derive(Drop)]
pub struct Emitted {
    /// Its picture.
    pub picture: Vec<u8>,
    /// Its samples.
    pub sound: Vec<u8>,
}

/// A run in progress.
#[derive(Drop)]
pub struct Played {
    serial: Serial<ConsoleSide, AudioSide>,
    buffer: Vec<u8>,
    region: Region,
    /// How many frames have run.
    frames: u32,
    emitted: Emitted,
}

/// An address that is waited for.
#[derive(Drop)]
pub struct Awaited {
    /// The address.
    pub address: u32,
    /// In which frame the first instruction there began.
    pub reached: Option<u32>,
}

/// Adds the first `count` bytes of the buffer.
fn add(bytes: &mut Vec<u8>, buffer: &[u8], count: usize) -> Result<(), AllocError> {
    match buffer.get(..count) {
        Some(first) => bytes.extend_from_slice(first),
        None => Ok(()),
    }
}

/// Takes all bytes that the two machines have emitted.
fn take_emitted<C: Machine, S: Machine>(
    serial: &mut Serial<C, S>,
    buffer: &mut [u8],
    emitted: &mut Emitted,
) -> Result<(), AllocError> {
    let count = serial.console().drain(buffer);
    add(&mut emitted.picture, buffer, count)?;
    let count = serial.sound().drain(buffer);
    add(&mut emitted.sound, buffer, count)
}

/// Runs steps that begin before `end`, as many as each side takes in one call. Returns false if none can be taken.
fn make_steps<C: Machine, S: Machine>(serial: &mut Serial<C, S>, end: u64) -> bool {
    let (console, sound) = serial.machines();
    if console.pending() > 0 || sound.pending() > 0 {
        return false;
    }
    if C::MOST > C::CAP || S::MOST > S::CAP || end > LAST {
        return false;
    }
    let _stamps = serial.console_leads(end, 0, 0);
    let (_, sound) = serial.machines();
    if sound.pending() == 0 {
        let _audio_at = serial.sound_leads(end, 0);
    }
    true
}

/// Takes the next step of a serial console. Returns false if it can't be taken.
fn make_turn<C: Machine, S: Machine>(serial: &mut Serial<C, S>) -> bool {
    let (console, sound) = serial.machines();
    if !console.ready() || !sound.ready() || console.stamp() > LAST || sound.stamp() > LAST {
        return false;
    }
    let _side = serial.turn();
    true
}

/// Returns the address of the instruction whose opcode the next step fetches, if it does.
fn begun(serial: &Serial<ConsoleSide, AudioSide>) -> Option<u32> {
    let (console, sound) = serial.machines();
    if !console_first(console.stamp(), sound.stamp()) || console.bus().transfer().is_some() {
        return None;
    }
    if console.bus().refreshes() || console.bus().resets() {
        return None;
    }
    let regs = console.processor().regs();
    let at = u32::from(regs.pc) + 65_536 * u32::from(regs.pbr);
    match console.processor().next() {
        Access::Fetch(address) if address == at => Some(at),
        _ => None,
    }
}

/// Notes that the instruction at this address begins in this frame.
fn note(awaited: &mut [Awaited], address: u32, frame: u32) {
    for one in awaited {
        if one.address == address && one.reached.is_none() {
            one.reached = Some(frame);
        }
    }
}

/// Whether one of these addresses has not been reached.
fn waits(awaited: &[Awaited]) -> bool {
    for one in awaited {
        if one.reached.is_none() {
            return true;
        }
    }
    false
}

/// The two machines of a job, before their first step.
fn machines_of(alloc: Global, job: &Job) -> Result<Serial<ConsoleSide, AudioSide>, NoMemory> {
    let sound = AudioSide::new(alloc, job)?;
    let console = ConsoleSide::new(alloc, job)?;
    Ok(Serial::new(console, sound))
}

impl Played {
    /// Returns the run of a job before its first frame.
    pub fn new(alloc: Global, job: &Job) -> Result<Played> {
        let buffer = vec![in alloc; 0u8; BUFFER]?;
        let Ok(serial) = machines_of(alloc, job) else {
            bail!("no memory");
        };
        Ok(Played {
            serial,
            buffer,
            region: job.region,
            frames: 0,
            emitted: Emitted {
                picture: Vec::new(alloc),
                sound: Vec::new(alloc),
            },
        })
    }

    /// Both machines, read-only.
    pub fn machines(&self) -> (&ConsoleSide, &AudioSide) {
        self.serial.machines()
    }

    /// What the last frame emitted.
    pub fn emitted(&self) -> &Emitted {
        &self.emitted
    }

    /// Runs the steps of the next frame, and notes the awaited instructions that begin in it.
    pub fn next_frame(&mut self, awaited: &mut [Awaited]) -> Result<()> {
        let frame = self.frames;
        if frame >= MOST_FRAMES {
            bail!("a run has at most {MOST_FRAMES} frames");
        }
        self.frames = frame + 1;
        self.emitted.picture.clear();
        self.emitted.sound.clear();
        let end = end_stamp_in(self.region, frame + 1);
        for _ in 0..u64::MAX {
            if self.serial.is_over(end) {
                break;
            }
            let taken = if waits(awaited) {
                if let Some(address) = begun(&self.serial) {
                    note(awaited, address, frame);
                }
                make_turn(&mut self.serial)
            } else {
                make_steps(&mut self.serial, end)
            };
            if !taken {
                bail!("the machines cannot go on");
            }
            take_emitted(
                &mut self.serial,
                self.buffer.as_mut_slice(),
                &mut self.emitted,
            )?;
        }
        Ok(())
    }
}
