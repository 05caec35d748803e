//! Accesses to the memories of the picture unit through their ports: which bytes nothing has written.

use crate::watch::{Watch, tell};
use lint_moments::{Now, Ports, oam_place, vram_place};
use lint_rules::{Findings, Rule, Written};
use ppu_regs::VramPort;
use std::alloc::{AllocError, Global};

/// The bytes of VRAM and OAM, and the colours of CGRAM.
pub const VRAM: usize = 65_536;

pub const OAM: usize = 544;

pub const CGRAM: usize = 256;

/// Returns VRAM's address after a write of its low byte, or of its high one.
fn aimed(address: u16, is_low: bool, byte: u8) -> u16 {
    if is_low {
        address / 256 * 256 + u16::from(byte)
    } else {
        address % 256 + 256 * u16::from(byte)
    }
}

/// Which bytes of the picture unit's memories have been written.
#[derive(Drop)]
pub struct PictureMemories {
    /// Bytes of VRAM, the low byte of a word first.
    vram: Written,
    oam: Written,
    /// Colours.
    cgram: Written,
    /// The word of VRAM that was fetched last.
    fetched: u16,
}

impl PictureMemories {
    /// Returns that nothing has been written.
    pub fn new(alloc: Global) -> Result<PictureMemories, AllocError> {
        let vram = Written::nothing(alloc, VRAM)?;
        let oam = Written::nothing(alloc, OAM)?;
        let cgram = Written::nothing(alloc, CGRAM)?;
        Ok(PictureMemories {
            vram,
            oam,
            cgram,
            fetched: 0,
        })
    }

    /// Takes note of a write of 2104. Below 512 bytes go to OAM in pairs, at the odd address.
    fn write_oam(&mut self, address: u16) {
        if 512 <= address {
            self.oam.write(usize::from(oam_place(address)));
        } else if address % 2 == 1 {
            self.oam.write(usize::from(address - 1));
            self.oam.write(usize::from(address));
        }
    }

    /// Takes note of a write to a register, as an offset from 2100, with the ports as they were before.
    pub fn write(&mut self, register: u8, byte: u8, ports: &Ports) {
        match register {
            0x04 => self.write_oam(ports.oam.address),
            0x16 | 0x17 => {
                let mut port = ports.vram;
                port.address = aimed(port.address, register == 0x16, byte);
                self.fetched = vram_place(&port);
            }
            0x18 => self.vram.write(2 * usize::from(vram_place(&ports.vram))),
            0x19 => self
                .vram
                .write(2 * usize::from(vram_place(&ports.vram)) + 1),
            0x22 if ports.cgram.high => self.cgram.write(usize::from(ports.cgram.index)),
            _ => {}
        }
    }

    /// Takes note of a read of 2139, or of 213A if `high`: it gives the byte that was fetched. Returns whether nothing has written it.
    fn read_vram(&mut self, port: &VramPort, high: bool) -> bool {
        let at = 2 * usize::from(self.fetched % 32_768) + if high { 1 } else { 0 };
        if port.steps_at_high == high {
            self.fetched = vram_place(port);
        }
        self.vram.read(at)
    }

    /// Takes note of a read of a register, with the ports as they were before, and returns the rule that it breaks.
    fn read(&mut self, register: u8, ports: &Ports) -> Option<Rule> {
        let (is_first, rule) = match register {
            0x38 => (
                self.oam.read(usize::from(oam_place(ports.oam.address))),
                Rule::OamBeforeWrite,
            ),
            0x39 => (self.read_vram(&ports.vram, false), Rule::VramBeforeWrite),
            0x3a => (self.read_vram(&ports.vram, true), Rule::VramBeforeWrite),
            0x3b => (
                self.cgram.read(usize::from(ports.cgram.index)),
                Rule::CgramBeforeWrite,
            ),
            _ => return None,
        };
        if is_first { Some(rule) } else { None }
    }
}

impl Watch {
    /// Checks a read of a port of the picture unit's memories.
    pub fn read_picture(
        &mut self,
        findings: &mut Findings,
        register: u8,
        by: u32,
        now: &Now,
    ) -> Result<(), AllocError> {
        let rule = self.pictures.read(register, &now.ports);
        tell(findings, rule, by, 0x2100 + u32::from(register), now)
    }
}
