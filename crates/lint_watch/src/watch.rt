//! What the rules have to know of the console side's past, and each of its steps as they see it.

use crate::lines::PictureWrites;
use crate::ports::PictureMemories;
use crate::shown::ShownMemories;
use cart_map::Place;
use console_bus::Bus;
use lint_moments::Now;
use lint_rules::{
    Asked, At, Cause, Finding, Findings, Moment, Polls, Rule, Unit, Written, edge_rule,
    interrupt_rule, picture_rule, register_rule, status_rule,
};
use snes_defs::{Cart, MapKind};
use std::alloc::{AllocError, Global};

/// The bytes of work RAM, and the address of the first.
const WRAM_SIZE: u32 = 131_072;

const WRAM_BASE: u32 = 0x7e_0000;

/// Returns what lies at an address, as the rules see it.
pub fn at_of(place: Place) -> At {
    match place {
        Place::Wram(_) => At::Wram,
        Place::Rom(_) => At::Rom,
        Place::Ram(_) => At::Ram,
        Place::BBus(_) => At::Register,
        Place::Cpu(_) => At::Register,
        Place::Open => At::Nothing,
    }
}

/// Adds a finding, if a rule was broken by an instruction of the console's processor.
pub fn tell(
    findings: &mut Findings,
    rule: Option<Rule>,
    by: u32,
    detail: u32,
    now: &Now,
) -> Result<(), AllocError> {
    match rule {
        Some(rule) => {
            let cause = Cause {
                unit: Unit::Console,
                address: by,
            };
            findings.add(Finding::new(rule, cause, detail, now.moment()))
        }
        None => Ok(()),
    }
}

/// Checks a write to a register of the B bus, as an offset from 2100.
pub fn check_b(
    findings: &mut Findings,
    register: u8,
    byte: u8,
    by: u32,
    now: &Now,
) -> Result<(), AllocError> {
    if register >= 0x40 {
        return Ok(());
    }
    let moment = now.moment();
    let detail = 0x2100 + u32::from(register);
    let rule = picture_rule(register, true, &moment);
    tell(findings, rule, by, detail, now)?;
    if register == 0 {
        tell(findings, edge_rule(byte, &moment), by, detail, now)?;
    }
    let rule = register_rule(now.mode7, register, &moment);
    tell(findings, rule, by, detail, now)
}

/// Checks the vector of an interrupt that is enabled.
pub fn check_vector(
    findings: &mut Findings,
    bus: &Bus,
    vector: u32,
    by: u32,
    now: &Now,
) -> Result<(), AllocError> {
    let target = u32::from(bus.take(vector)) + 256 * u32::from(bus.take(vector.wrapping_add(1)));
    let rule = interrupt_rule(at_of(bus.place(target)));
    tell(findings, rule, by, vector, now)
}

/// What is kept of the console side's past.
#[derive(Drop)]
pub struct Watch {
    /// The cycles of the processor.
    pub(crate) cycle: u64,
    /// What the arithmetic unit was asked for last.
    pub(crate) asked: Option<Asked>,
    /// When auto-read was turned on, if it is on.
    pub(crate) auto_read: Option<Moment>,
    /// When 4212 was read last.
    pub(crate) polled: Option<Moment>,
    pub(crate) polls: Polls,
    /// The bytes last written to 4200, 4201 and 420C, and VTIME.
    pub(crate) nmitimen: u8,
    pub(crate) wrio: u8,
    pub(crate) hdma: u8,
    pub(crate) vtime: u16,
    /// The instructions that wrote 420B and 420C last.
    pub(crate) dma_by: u32,
    pub(crate) hdma_by: u32,
    /// Whether the transfer under way began in blank, and how many of its bytes came after the blank's end.
    pub(crate) began_in_blank: bool,
    pub(crate) past: u64,
    /// The last instruction, and whether the stack pointer was outside work RAM when it began.
    pub(crate) last_by: u32,
    pub(crate) is_stack_out: bool,
    /// Which bytes of work RAM have been written, and the address of 2180.
    pub(crate) wram: Written,
    pub(crate) port: u32,
    /// Which bytes of the cartridge's RAM have been written.
    pub(crate) sram: Written,
    /// Which bytes of the picture unit's memories have been written, for reads of them and for lines that show them, and its
    /// registers.
    pub(crate) pictures: PictureMemories,
    pub(crate) shown: ShownMemories,
    pub(crate) writes: PictureWrites,
    /// The stamp at which the next line begins.
    pub(crate) line_end: u64,
    /// The map byte of the header.
    pub(crate) map_byte: u8,
}

/// Returns the map byte of a cartridge's header.
fn map_byte_of(cart: &Cart) -> u8 {
    let at = match cart.map {
        MapKind::LoRom => 0x7fd5,
        MapKind::HiRom => 0xffd5,
    };
    match cart.rom.get().get(at) {
        Some(byte) => *byte,
        None => 0,
    }
}

impl Watch {
    /// Returns the state before the first step of a cartridge's run. Its RAM has so many bytes.
    pub fn new(alloc: Global, cart: &Cart, ram: u32) -> Result<Watch, AllocError> {
        let wram = Written::nothing(alloc, WRAM_SIZE as usize)?;
        let sram = Written::nothing(alloc, ram as usize)?;
        let pictures = PictureMemories::new(alloc)?;
        let shown = ShownMemories::new(alloc)?;
        Ok(Watch {
            cycle: 0,
            asked: None,
            auto_read: None,
            polled: None,
            polls: Polls::begin(0, 0, 0),
            nmitimen: 0,
            wrio: 0xff,
            hdma: 0,
            vtime: 0x1ff,
            dma_by: 0,
            hdma_by: 0,
            began_in_blank: false,
            past: 0,
            last_by: 0,
            is_stack_out: false,
            wram,
            port: 0,
            sram,
            pictures,
            shown,
            writes: PictureWrites::new(),
            line_end: 0,
            map_byte: map_byte_of(cart),
        })
    }

    /// Counts a cycle of the processor.
    pub fn count_cycle(&mut self) {
        self.cycle = self.cycle.saturating_add(1);
    }

    /// Forgets what a reset sets back.
    pub fn reset(&mut self) {
        self.asked = None;
        self.auto_read = None;
        self.nmitimen = 0;
        self.wrio = 0xff;
        self.hdma = 0;
        self.vtime = 0x1ff;
    }

    /// Takes note of a write to a memory.
    pub fn write_memory(&mut self, place: Place) {
        match place {
            Place::Wram(at) => self.wram.write(at as usize),
            Place::Ram(at) => self.sram.write(at as usize),
            _ => {}
        }
    }

    /// Checks a read of a memory at an address. Each byte that nothing has written is told once.
    pub fn read_memory(
        &mut self,
        findings: &mut Findings,
        place: Place,
        address: u32,
        by: u32,
        now: &Now,
    ) -> Result<(), AllocError> {
        match place {
            Place::Wram(at) => self.read_wram(findings, at, by, now),
            Place::Ram(at) => {
                if self.sram.read(at as usize) {
                    tell(findings, Some(Rule::SramBeforeWrite), by, address, now)
                } else {
                    Ok(())
                }
            }
            _ => Ok(()),
        }
    }

    /// Checks a read of a byte of work RAM.
    fn read_wram(
        &mut self,
        findings: &mut Findings,
        at: u32,
        by: u32,
        now: &Now,
    ) -> Result<(), AllocError> {
        if !self.wram.read(at as usize) {
            return Ok(());
        }
        let detail = WRAM_BASE + at % WRAM_SIZE;
        tell(findings, Some(Rule::WramBeforeWrite), by, detail, now)
    }

    /// Returns the byte of work RAM that 2180 accesses, and goes on to the next.
    fn next_of_port(&mut self) -> u32 {
        let at = self.port % WRAM_SIZE;
        self.port = (at + 1) % WRAM_SIZE;
        at
    }

    /// Takes note of a write to the registers of work RAM, 2180 to 2183.
    fn write_port(&mut self, register: u8, byte: u8) {
        let port = self.port % WRAM_SIZE;
        match register {
            0x80 => {
                let at = self.next_of_port();
                self.wram.write(at as usize);
            }
            0x81 => self.port = port / 256 * 256 + u32::from(byte),
            0x82 => self.port = port / 65_536 * 65_536 + 256 * u32::from(byte) + port % 256,
            0x83 => self.port = port % 65_536 + 65_536 * u32::from(byte % 2),
            _ => {}
        }
    }

    /// Takes note of a write to a register of the B bus, as an offset from 2100.
    pub fn note_b(&mut self, register: u8, byte: u8, by: u32, now: &Now) {
        self.write_port(register, byte);
        self.pictures.write(register, byte, &now.ports);
        self.shown.write(register, &now.ports);
        self.writes.write(register, byte, by);
    }

    /// Sees a write to a register of the B bus, as an offset from 2100.
    pub fn write_b(
        &mut self,
        findings: &mut Findings,
        register: u8,
        byte: u8,
        by: u32,
        now: &Now,
    ) -> Result<(), AllocError> {
        self.note_b(register, byte, by, now);
        check_b(findings, register, byte, by, now)
    }

    /// Sees a read of a register of the B bus, as an offset from 2100.
    pub fn read_b(
        &mut self,
        findings: &mut Findings,
        register: u8,
        by: u32,
        now: &Now,
    ) -> Result<(), AllocError> {
        if register == 0x80 {
            let at = self.next_of_port();
            return self.read_wram(findings, at, by, now);
        }
        let detail = 0x2100 + u32::from(register);
        let rule = picture_rule(register, false, &now.moment());
        tell(findings, rule, by, detail, now)?;
        tell(findings, status_rule(register), by, detail, now)?;
        self.read_picture(findings, register, by, now)
    }

    /// Adds a byte to the transfer under way that came after the end of blank. Each transfer counts once.
    pub fn tell_past(
        &mut self,
        findings: &mut Findings,
        detail: u32,
        now: &Now,
    ) -> Result<(), AllocError> {
        self.past = self.past.saturating_add(1);
        let cause = Cause {
            unit: Unit::Console,
            address: self.dma_by,
        };
        let mut found = Finding::new(Rule::TransferPastBlank, cause, detail, now.moment());
        found.count = if self.past == 1 { 1 } else { 0 };
        found.most = self.past;
        findings.add(found)
    }
}
