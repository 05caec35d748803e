//! Coverage of the cartridge's ROM by the steps of a run, and its files.

use crate::step::{Instruction, Kind, Step, Way};
use anyhow::{Context, Result, bail};
use cart_map::Place;
use rom_coverage::{Coverage, Opcode, log_file, picture_file, record_file};
use snes_defs::{Cart, MapKind, Side};
use std::alloc::Global;
use std::fs;
use std::rt::Files;
use symbol_files::SourceLines;

/// The form of a file of coverage, by the end of its name.
#[derive(Clone, Copy, PartialEq, Eq)]
pub enum Form {
    /// A log of code and data: `.cdl`.
    Log,
    /// A picture: `.png`.
    Picture,
    /// A record of lines of source: `.info`.
    Record,
}

/// A file of coverage that is asked for.
#[derive(Clone, Copy)]
pub struct Asked<'a> {
    /// Its name.
    pub name: &'a str,
    /// Its form.
    pub form: Form,
}

/// Returns the file that is asked for, by the end of its name.
pub fn asked_of(name: &str) -> Result<Asked<'_>> {
    let form = if name.ends_with(".cdl") {
        Form::Log
    } else if name.ends_with(".png") {
        Form::Picture
    } else if name.ends_with(".info") {
        Form::Record
    } else {
        bail!("--coverage {name}: the name ends in .cdl, .png or .info");
    };
    Ok(Asked { name, form })
}

/// Whether an address is in the vectors, which interrupts and the reset read.
fn is_vector(address: u32) -> bool {
    0xFFE0 <= address && address <= 0xFFFF
}

/// Notes a read of the processor.
fn note_read(coverage: &mut Coverage, address: u32, at: Option<usize>) {
    if is_vector(address) {
        coverage.interrupt();
    }
    if let Some(at) = at {
        coverage.read(at);
    }
}

/// Whether a byte of a transfer is read on the A side.
fn is_read(way: Way) -> bool {
    match way {
        Way::To(_) => true,
        Way::Table => true,
        Way::From(_) => false,
        Way::Nowhere => false,
    }
}

/// Notes a byte of a transfer.
fn note_transfer(coverage: &mut Coverage, way: Way, at: Option<usize>) {
    if let Some(at) = at {
        if is_read(way) {
            coverage.transfer(at);
        }
    }
}

/// Notes what a step does to the cartridge's ROM.
pub fn note(coverage: &mut Coverage, step: &Step) {
    let (Side::Console, Some(address)) = (step.side, step.address) else {
        return;
    };
    let at = match step.place {
        Some(Place::Rom(at)) => Some(at as usize),
        _ => None,
    };
    match (step.kind, step.instruction, at) {
        (Kind::Opcode, Instruction::Console(regs, bytes), _) => {
            let p = regs.p;
            coverage.execute(at, &Opcode { address, bytes, p });
        }
        (Kind::Fetch, _, Some(at)) => coverage.fetch(at),
        (Kind::Read, _, _) => note_read(coverage, address, at),
        (Kind::Dma, _, _) | (Kind::Hdma, _, _) => note_transfer(coverage, step.way, at),
        _ => {}
    }
}

/// Returns the bytes of a bank of a cartridge's ROM.
pub fn bank_of(cart: &Cart) -> usize {
    match cart.map {
        MapKind::LoRom => 32_768,
        MapKind::HiRom => 65_536,
    }
}

/// Writes the file that is asked for. A record has the lines of source.
pub fn write_file<R: Files>(
    rt: &R,
    alloc: Global,
    asked: Asked<'_>,
    coverage: &Coverage,
    rom: &[u8],
    source: Option<&SourceLines>,
) -> Result<()> {
    let bytes = match (asked.form, source) {
        (Form::Log, _) => log_file(alloc, coverage, rom)?,
        (Form::Picture, _) => picture_file(alloc, coverage)?,
        (Form::Record, Some(source)) => record_file(alloc, coverage, source)?,
        (Form::Record, None) => Vec::new(alloc),
    };
    fs::write(rt, asked.name, bytes).context(format_args!("cannot write {}", asked.name))
}
