use crate::buses::BusCase;
use crate::cartridges::CartridgeCase;
use crate::events::passes_as;
use crate::registers::act_as;
use crate::transfers::TransferCase;
use beam::Beam;
use io_math::Io;
use snes_defs::Region;
use std::alloc::Global;

/// A part of the console that has cases.
#[derive(Clone, Copy)]
pub enum Part {
    Cartridges,
    Transfers,
    Registers,
    Beam,
    Bus,
}

impl Part {
    /// Returns the part whose cases a file has, if its first line that is not a comment begins a case of one.
    pub fn of(text: &str) -> Option<Part> {
        for line in text.lines() {
            if !line.starts_with('#') {
                return Part::named(line.split_whitespace().next()?);
            }
        }
        None
    }

    /// Returns the part whose cases begin with this word.
    fn named(word: &str) -> Option<Part> {
        match word {
            "cart" => Some(Part::Cartridges),
            "dma" => Some(Part::Transfers),
            "io" => Some(Part::Registers),
            "beam" => Some(Part::Beam),
            "bus" => Some(Part::Bus),
            _ => None,
        }
    }
}

/// The current case, of one part.
#[derive(Drop)]
pub enum Case {
    Cartridge(CartridgeCase),
    Transfers(TransferCase),
    Registers(Io),
    Beam(Beam),
    Bus(BusCase),
}

impl Case {
    /// Returns a new case of a part.
    pub fn new(alloc: Global, part: Part) -> Case {
        match part {
            Part::Cartridges => Case::Cartridge(CartridgeCase::new(alloc)),
            Part::Transfers => Case::Transfers(TransferCase::new()),
            Part::Registers => Case::Registers(Io::new()),
            Part::Beam => Case::Beam(Beam::new(Region::Ntsc)),
            Part::Bus => Case::Bus(BusCase::new(alloc)),
        }
    }

    /// Whether a line holds. One that only says what to do holds, and one that can't be read doesn't.
    pub fn holds(&mut self, line: &str) -> bool {
        match self {
            Case::Cartridge(case) => case.holds(line),
            Case::Transfers(case) => case.holds(line),
            Case::Registers(registers) => act_as(registers, line),
            Case::Beam(beam) => passes_as(beam, line),
            Case::Bus(case) => case.holds(line),
        }
    }
}
