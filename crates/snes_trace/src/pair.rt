//! The two machines of a job, and each of their steps as it is taken.

use crate::breaks::settle_breaks;
use crate::labels::Labels;
use crate::looks::{complete, look_at_console, look_at_sound, tell_dma};
use crate::step::Step;
use crate::trace::Wanted;
use anyhow::Result;
use audio_side::AudioSide;
use clock_ratio::console_first;
use console_machine::ConsoleSide;
use dma_hdma::Dma;
use serial_console::Serial;
use side_law::Machine;
use snes_defs::{Job, NoMemory, Region};
use std::alloc::Global;

/// The last stamp at which a step may begin.
const LAST: u64 = 1 << 62;

/// The serial console of a job, and channels that follow its DMA alone.
#[derive(Drop)]
pub struct Pair {
    serial: Serial<ConsoleSide, AudioSide>,
    dma: Dma,
    /// The buffer for emitted bytes, which are dropped.
    bytes: Vec<u8>,
    region: Region,
}

/// Takes the next step of a serial console, after making room for its bytes; returns whether it was taken.
fn make_turn<C: Machine, S: Machine>(serial: &mut Serial<C, S>, bytes: &mut [u8]) -> bool {
    if serial.console().pending() > 0 {
        let _count = serial.console().drain(bytes);
    }
    if serial.sound().pending() > 0 {
        let _count = serial.sound().drain(bytes);
    }
    let (console, sound) = serial.machines();
    if !console.ready() || !sound.ready() || console.stamp() > LAST || sound.stamp() > LAST {
        return false;
    }
    let _side = serial.turn();
    true
}

impl Pair {
    /// Returns the machines of a job before its first step.
    pub fn new(alloc: Global, job: &Job) -> Result<Pair, NoMemory> {
        let console = ConsoleSide::new(alloc, job)?;
        let sound = AudioSide::new(alloc, job)?;
        let Ok(bytes) = vec![in alloc; 0u8; 4096] else {
            return Err(NoMemory);
        };
        Ok(Pair {
            serial: Serial::new(console, sound),
            dma: Dma::new(),
            bytes,
            region: job.region,
        })
    }

    /// Returns the region of the machines.
    pub fn region(&self) -> Region {
        self.region
    }

    /// Finds out what is at the addresses of labels and of breakpoints.
    pub fn settle(&self, alloc: Global, labels: &mut Labels, wanted: &mut Wanted) -> Result<()> {
        let (console, _) = self.serial.machines();
        labels.settle(console.bus())?;
        settle_breaks(alloc, console.bus(), wanted.breaks.as_mut_slice())?;
        wanted.until.settle(alloc, self)
    }

    /// Returns both machines, read-only.
    pub fn machines(&self) -> (&ConsoleSide, &AudioSide) {
        self.serial.machines()
    }

    /// Returns the bytes of the four ports to the sound side, then of the four to the console.
    pub fn ports(&self) -> ([u8; 4], [u8; 4]) {
        self.serial.ports()
    }

    /// Whether both machines are at a stamp or past it.
    pub fn is_past(&self, end: u64) -> bool {
        self.serial.finished(end)
    }

    /// Takes the next step of the console, and returns it.
    fn next_of_console(&mut self) -> Option<Step> {
        let (console, _) = self.serial.machines();
        let mut step = look_at_console(console, &self.dma);
        step.place = match step.address {
            Some(address) => Some(console.bus().place(address)),
            None => None,
        };
        if !make_turn(&mut self.serial, self.bytes.as_mut_slice()) {
            return None;
        }
        let (console, _) = self.serial.machines();
        complete(console, &mut step);
        tell_dma(&mut self.dma, &step);
        Some(step)
    }

    /// Takes the next step of the sound side, and returns it.
    fn next_of_sound(&mut self) -> Option<Step> {
        let (incoming, _) = self.serial.ports();
        let (_, sound) = self.serial.machines();
        let step = look_at_sound(sound, incoming);
        if !make_turn(&mut self.serial, self.bytes.as_mut_slice()) {
            return None;
        }
        Some(step)
    }

    /// Takes the next step, that of the earlier machine, and returns it.
    pub fn next(&mut self) -> Option<Step> {
        let (console, sound) = self.serial.machines();
        if console_first(console.stamp(), sound.stamp()) {
            self.next_of_console()
        } else {
            self.next_of_sound()
        }
    }
}
