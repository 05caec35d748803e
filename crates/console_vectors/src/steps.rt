//! Records the first steps of a job on both machines, each before it is taken: its time, kind, address and byte.

use crate::record::Record;
use audio_side::AudioSide;
use clock_ratio::{CONSOLE_RATE, PAL_CONSOLE_RATE};
use console_machine::ConsoleSide;
use cpu_tables::Access;
use dma_hdma::{Dma, Move};
use side_law::Machine;
use snes_defs::{Act, Job, Region};
use spc700::SpcAccess;
use std::alloc::Global;

/// More steps than the machines take until the records are full.
const MOST_STEPS: u32 = 1_000_000;

/// An address of the B bus in bank 0: a transfer reads there the byte that was last on the data bus.
const OPEN: u32 = 0x2100;

/// What a step is: its letter, and the address and port that go with it.
#[derive(Clone, Copy)]
struct Step {
    letter: u8,
    address: u32,
    port: u8,
}

fn told(letter: u8, address: u32, port: u8) -> Step {
    Step {
        letter,
        address,
        port,
    }
}

/// The two machines, the bytes on their way to each, and channels that follow DMA alone.
#[derive(Drop)]
struct Pair {
    console: ConsoleSide,
    sound: AudioSide,
    to_console: [u8; 4],
    to_sound: [u8; 4],
    dma: Dma,
}

/// Whether a byte moved to the B bus is one of DMA: the next one that the channels without HDMA would move.
fn is_of_dma(dma: &Dma, due: Move) -> bool {
    dma.next() == Some(due)
}

/// Returns the step that moves a byte of a transfer.
fn transfer(dma: &Dma, due: Move) -> Step {
    match due {
        Move::Load { from } => told(b'l', from, 0),
        Move::ToB { from, port } if is_of_dma(dma, due) => told(b'B', from, port),
        Move::ToB { from, port } => told(b'b', from, port),
        Move::ToA { port, to } => told(b'A', to, port),
    }
}

/// Returns the console's next step.
fn console_step(console: &ConsoleSide, dma: &Dma) -> Step {
    let bus = console.bus();
    if bus.resets() {
        return told(b'z', 0, 0);
    }
    if bus.refreshes() {
        return told(b'r', 0, 0);
    }
    if let Some(due) = bus.transfer() {
        return transfer(dma, due);
    }
    match console.processor().next() {
        Access::Fetch(address) => told(b'F', address, 0),
        Access::Read(address) => told(b'R', address, 0),
        Access::Write(address, _) => told(b'W', address, 0),
        Access::Inner => told(b'I', 0, 0),
    }
}

/// Returns the sound side's next step, and its byte, if an incoming port has `got`.
fn sound_step(sound: &AudioSide, got: u8) -> (Step, u8) {
    let access = sound.processor().next();
    let writes_control = match access {
        SpcAccess::Write(0xF1, _) => true,
        _ => false,
    };
    if sound.act() == Act::Clear(15) && !writes_control {
        return (told(b'z', 0, 0), 0);
    }
    match access {
        SpcAccess::Fetch(at) => (told(b'F', at as u32, 0), sound.byte_at(at, got)),
        SpcAccess::Read(at) => (told(b'R', at as u32, 0), sound.byte_at(at, got)),
        SpcAccess::Write(at, byte) => (told(b'W', at as u32, 0), byte),
        SpcAccess::Inner => (told(b'I', 0, 0), 0),
    }
}

/// Returns what a step reads from the incoming ports, which a clear zeroes, and makes its write to the outgoing ones.
fn at_ports(act: Act, incoming: &mut [u8; 4], outgoing: &mut [u8; 4]) -> u8 {
    match act {
        Act::Quiet => 0,
        Act::Read(port) => incoming[port as usize % 4],
        Act::Write(port, byte) => {
            outgoing[port as usize % 4] = byte;
            0
        }
        Act::Clear(mask) => {
            let mut bits = mask;
            for port in incoming {
                if bits % 2 == 1 {
                    *port = 0;
                }
                bits /= 2;
            }
            0
        }
    }
}

/// Takes a step, with room for what it emits.
fn make<M: Machine>(side: &mut M, got: u8) -> Option<()> {
    let mut bytes = [0u8; 4096];
    if !side.ready() {
        let _count = side.drain(&mut bytes);
    }
    if !side.ready() || side.stamp() > 1 << 62 {
        return None;
    }
    side.step(got);
    Some(())
}

/// Updates the channels by what a step did to DMA.
fn tell_dma(dma: &mut Dma, step: Step, byte: u8) {
    let register = (step.address % 0x1_0000) as u16;
    let is_register = step.letter == b'W' && step.address / 0x1_0000 % 0x80 < 0x40;
    match register {
        0x420B if is_register => dma.start(byte),
        0x4300..=0x437F if is_register => dma.write(register, byte),
        _ => {}
    }
    if (step.letter == b'B' || step.letter == b'A') && dma.next().is_some() {
        dma.done(byte);
    }
}

impl Pair {
    /// Takes and records a step of the console.
    fn step_console(&mut self, region: Region, record: &mut Record) -> Option<()> {
        let rate = match region {
            Region::Ntsc => CONSOLE_RATE,
            Region::Pal => PAL_CONSOLE_RATE,
        };
        let clock = self.console.stamp() / rate;
        let step = console_step(&self.console, &self.dma);
        let act = self.console.act();
        let got = at_ports(act, &mut self.to_console, &mut self.to_sound);
        make(&mut self.console, got)?;
        let byte = match step.letter {
            b'z' | b'r' | b'I' => 0,
            _ => self.console.bus().take(OPEN),
        };
        tell_dma(&mut self.dma, step, byte);
        record.add(clock, 8);
        record.add(step.letter as u64, 1);
        record.add(step.address as u64, 3);
        record.add(step.port as u64, 1);
        record.add(byte as u64, 1);
        record.end_step();
        Some(())
    }

    /// Takes and records a step of the sound side.
    fn step_sound(&mut self, record: &mut Record) -> Option<()> {
        let act = self.sound.act();
        let got = at_ports(act, &mut self.to_sound, &mut self.to_console);
        let (step, byte) = sound_step(&self.sound, got);
        make(&mut self.sound, got)?;
        record.add(record.number(), 8);
        record.add(step.letter as u64, 1);
        record.add(step.address as u64, 2);
        record.add(byte as u64, 1);
        record.end_step();
        Some(())
    }

    /// Takes steps, the earlier side first, until both records are full.
    fn fill(
        &mut self,
        region: Region,
        console_record: &mut Record,
        sound_record: &mut Record,
    ) -> Option<()> {
        for _ in 0..MOST_STEPS {
            if console_record.is_full() && sound_record.is_full() {
                return Some(());
            }
            if self.console.stamp() <= self.sound.stamp() {
                self.step_console(region, console_record)?;
            } else {
                self.step_sound(sound_record)?;
            }
        }
        None
    }
}

/// Takes the first steps of a job, the earlier side first, until both records are full.
pub fn record_steps(
    alloc: Global,
    job: &Job,
    console_record: &mut Record,
    sound_record: &mut Record,
) -> Option<()> {
    let Ok(sound) = AudioSide::new(alloc, job) else {
        return None;
    };
    let Ok(console) = ConsoleSide::new(alloc, job) else {
        return None;
    };
    let mut pair = Pair {
        console,
        sound,
        to_console: [0; 4],
        to_sound: [0; 4],
        dma: Dma::new(),
    };
    pair.fill(job.region, console_record, sound_record)
}
