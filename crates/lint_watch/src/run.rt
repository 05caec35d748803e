//! The two machines of a job, and their steps one after another, each shown to the rules.

use crate::header::check_file;
use crate::seen::{Kind, finish, look_at, tell_dma};
use crate::sound_watch::SoundWatch;
use crate::watch::Watch;
use anyhow::{Result, bail};
use audio_side::AudioSide;
use clock_ratio::{console_first, end_stamp_in};
use console_machine::ConsoleSide;
use dma_hdma::Dma;
use lint_moments::{Now, Ports};
use lint_rules::Findings;
use serial_console::Serial;
use side_law::Machine;
use snes_defs::{Job, MOST_FRAMES, Region};
use std::alloc::Global;

/// The last stamp at which a step may begin.
const LAST: u64 = 1 << 62;

/// The serial console of a job, and what watches it.
#[derive(Drop)]
pub struct WatchedRun {
    serial: Serial<ConsoleSide, AudioSide>,
    /// Channels that follow DMA alone, to tell it from HDMA.
    dma: Dma,
    /// The buffer for emitted bytes, which are dropped.
    bytes: Vec<u8>,
    region: Region,
    /// How many frames have run.
    frames: u32,
    watch: Watch,
    sound: SoundWatch,
    findings: Findings,
}

/// Takes the next step of a serial console, after making room for its bytes; returns whether it was taken.
fn make_turn<C: Machine, S: Machine>(serial: &mut Serial<C, S>, bytes: &mut [u8]) -> bool {
    if serial.console().pending() > 0 {
        let _count = serial.console().drain(bytes);
    }
    if serial.sound().pending() > 0 {
        let _count = serial.sound().drain(bytes);
    }
    let (console, sound) = serial.machines();
    if !console.ready() || !sound.ready() || console.stamp() > LAST || sound.stamp() > LAST {
        return false;
    }
    let _side = serial.turn();
    true
}

/// Returns the time of a step of the console side, and what the picture unit does then.
fn now_of(region: Region, console: &ConsoleSide) -> Now {
    let registers = console.bus().picture().registers();
    Now {
        region,
        stamp: console.stamp(),
        overscan: registers.settings.overscan,
        forced: registers.display.blanked,
        mode7: registers.mode == 7,
        ports: Ports::of(registers),
    }
}

/// Returns findings by rule and then by cause.
fn sorted(mut findings: Findings) -> Result<Findings> {
    findings.sort()?;
    Ok(findings)
}

impl WatchedRun {
    /// Returns the run of a job before its first step. What it finds is added to `findings`, which are those of the job's profile.
    /// A run of more than the job's frames goes on with no button pressed. Fails if memory runs out.
    pub fn new(alloc: Global, job: &Job, findings: Findings) -> Result<WatchedRun> {
        let Ok(console) = ConsoleSide::new(alloc, job) else {
            bail!("no memory");
        };
        let Ok(sound) = AudioSide::new(alloc, job) else {
            bail!("no memory");
        };
        let bytes = vec![in alloc; 0u8; 4096]?;
        let watch = Watch::new(alloc, &job.cart, console.bus().cart_ram())?;
        let sounds = SoundWatch::new(alloc)?;
        Ok(WatchedRun {
            serial: Serial::new(console, sound),
            dma: Dma::new(),
            bytes,
            region: job.region,
            frames: 0,
            watch,
            sound: sounds,
            findings,
        })
    }

    /// Returns what was found, by rule and then by cause, and ends the run.
    pub fn into_findings(self) -> Result<Findings> {
        let WatchedRun { findings, .. } = self;
        sorted(findings)
    }

    /// Takes the next step of the console, and shows it to the rules.
    fn step_console(&mut self) -> Result<bool> {
        let (console, _) = self.serial.machines();
        let now = now_of(self.region, console);
        self.watch
            .see_time(&mut self.findings, console.bus(), &now)?;
        let mut seen = look_at(console, &self.dma);
        if !make_turn(&mut self.serial, self.bytes.as_mut_slice()) {
            return Ok(false);
        }
        let (console, _) = self.serial.machines();
        finish(console, &mut seen);
        tell_dma(&mut self.dma, &seen);
        if let Kind::Reset = seen.kind {
            self.sound.reset();
        }
        self.watch
            .see(&mut self.findings, console.bus(), &seen, &now)?;
        Ok(true)
    }

    /// Takes the next step of the sound side, and shows it to the rules.
    fn step_sound(&mut self) -> Result<bool> {
        let (console, sound) = self.serial.machines();
        let mut now = now_of(self.region, console);
        now.stamp = sound.stamp();
        self.sound.see(&mut self.findings, sound, &now)?;
        Ok(make_turn(&mut self.serial, self.bytes.as_mut_slice()))
    }

    /// Takes the next step, that of the earlier machine; returns whether it was taken.
    fn step(&mut self) -> Result<bool> {
        let (console, sound) = self.serial.machines();
        if console_first(console.stamp(), sound.stamp()) {
            self.step_console()
        } else {
            self.step_sound()
        }
    }

    /// Takes the steps of the next frame. Fails after `MOST_FRAMES` frames, or if memory for a finding runs out.
    pub fn next_frame(&mut self) -> Result<()> {
        let frame = self.frames;
        if frame >= MOST_FRAMES {
            bail!("a run has at most {MOST_FRAMES} frames");
        }
        self.frames = frame + 1;
        let end = end_stamp_in(self.region, frame + 1);
        for _ in 0..u64::MAX {
            if self.serial.finished(end) {
                break;
            }
            if !self.step()? {
                bail!("the machines cannot go on");
            }
        }
        Ok(())
    }
}

/// Checks the file of a cartridge, runs so many frames of its job, and returns what was found, by rule and then by cause. `size`
/// is the number of bytes of the file.
pub fn watch_job(alloc: Global, size: usize, job: &Job, frames: u32) -> Result<Findings> {
    let mut findings = Findings::in_profile(alloc, job.script.profile());
    check_file(&mut findings, size, &job.cart)?;
    let mut run = WatchedRun::new(alloc, job, findings)?;
    for _ in 0..frames {
        run.next_frame()?;
    }
    run.into_findings()
}
