//! What is shown on a line: registers that nothing has written, the backdrop of high resolution, and objects that are turned over.

use crate::watch::{Watch, tell};
use clock_ratio::{CONSOLE_RATE, PAL_CONSOLE_RATE};
use console_bus::Bus;
use lint_moments::Now;
use lint_rules::{
    Findings, Masks, Moment, Object, Rule, Screen, backdrop_rule, flip_rule, unset_rule,
};
use ppu_regs::Ppu;
use snes_defs::Region;
use std::alloc::AllocError;

/// The master clocks of a line.
const LINE: u64 = 1364;

/// The registers of the picture unit that can be written: 2100 to 2133.
const REGISTERS: usize = 64;

/// What the program has written to the registers of the picture unit.
#[derive(Drop)]
pub struct PictureWrites {
    /// The byte last written to each register, and whether one was.
    bytes: [u8; REGISTERS],
    is_set: [bool; REGISTERS],
    /// Whether one was written since the registers were checked.
    is_new: bool,
    /// The instructions that last turned the screen on, chose mode or half-pixels, and wrote OAM.
    pub(crate) screen_by: u32,
    mode_by: u32,
    oam_by: u32,
    /// The frame in which the backdrop was told last.
    told_in: Option<u64>,
}

impl PictureWrites {
    /// Returns that nothing has been written.
    pub fn new() -> PictureWrites {
        PictureWrites {
            bytes: [0; REGISTERS],
            is_set: [false; REGISTERS],
            is_new: true,
            screen_by: 0,
            mode_by: 0,
            oam_by: 0,
            told_in: None,
        }
    }

    /// Takes note of a write to a register, as an offset from 2100.
    pub fn write(&mut self, register: u8, byte: u8, by: u32) {
        let at = usize::from(register);
        if at >= REGISTERS {
            return;
        }
        self.bytes[at] = byte;
        self.is_set[at] = true;
        self.is_new = true;
        match register {
            0x00 if byte < 128 && byte % 16 > 0 => self.screen_by = by,
            0x04 => self.oam_by = by,
            0x05 | 0x33 => self.mode_by = by,
            _ => {}
        }
    }

    /// Returns what chooses what is shown.
    fn screen(&self) -> Screen {
        Screen {
            mode: self.bytes[0x05] % 8,
            main: self.bytes[0x2c],
            sub: self.bytes[0x2d],
            select: self.bytes[0x30],
            math: self.bytes[0x31],
            settings: self.bytes[0x33],
            masks: Masks {
                main: self.bytes[0x2e],
                sub: self.bytes[0x2f],
                first: self.bytes[0x23],
                second: self.bytes[0x24],
                third: self.bytes[0x25],
            },
        }
    }

    /// Returns the rule that a register breaks on a screen, as an offset from 2100, and takes it as set from then on.
    fn check(&mut self, screen: &Screen, register: u8) -> Option<Rule> {
        let at = usize::from(register);
        if at >= REGISTERS {
            return None;
        }
        let rule = unset_rule(screen, register, self.is_set[at]);
        if rule.is_some() {
            self.is_set[at] = true;
        }
        rule
    }
}

/// Returns an object by its number from 0 to 127, with a size code.
pub fn object_of(oam: &[u8; 544], number: u8, size: u8) -> Option<Object> {
    let at = 4 * usize::from(number);
    let high = *oam.get(512 + usize::from(number / 4))?;
    let bits = match number % 4 {
        0 => high % 4,
        1 => high / 4 % 4,
        2 => high / 16 % 4,
        _ => high / 64,
    };
    Some(Object {
        size,
        large: bits / 2 == 1,
        x: u16::from(*oam.get(at)?) + 256 * u16::from(bits % 2),
        y: *oam.get(at + 1)?,
        tile: *oam.get(at + 2)?,
        attributes: *oam.get(at + 3)?,
    })
}

/// Returns the rule that an object of a picture breaks, if one does. A picture has so many rows.
fn objects_rule(picture: &Ppu, rows: u64) -> Option<Rule> {
    let size = picture.registers().object_tiles.size;
    if size < 6 {
        return None;
    }
    for number in 0u8..128 {
        if let Some(object) = object_of(picture.oam(), number, size) {
            let rule = flip_rule(object, rows);
            if rule.is_some() {
                return rule;
            }
        }
    }
    None
}

impl Watch {
    /// Checks the registers that a picture depends on, if one was written since they were checked. Each is told once.
    fn see_registers(
        &mut self,
        findings: &mut Findings,
        screen: &Screen,
        now: &Now,
    ) -> Result<(), AllocError> {
        if !self.writes.is_new {
            return Ok(());
        }
        self.writes.is_new = false;
        for register in 0u8..0x34 {
            let rule = self.writes.check(screen, register);
            let detail = 0x2100 + u32::from(register);
            tell(findings, rule, self.writes.screen_by, detail, now)?;
        }
        Ok(())
    }

    /// Checks the backdrop. It is told once a frame.
    fn see_backdrop(
        &mut self,
        findings: &mut Findings,
        screen: &Screen,
        colour: u16,
        now: &Now,
    ) -> Result<(), AllocError> {
        let frame = now.moment().frame;
        let rule = backdrop_rule(screen, colour);
        if rule.is_none() || self.writes.told_in == Some(frame) {
            return Ok(());
        }
        self.writes.told_in = Some(frame);
        tell(findings, rule, self.writes.mode_by, 0, now)
    }

    /// Checks the line that begins, whose screen is on.
    fn see_shown(
        &mut self,
        findings: &mut Findings,
        picture: &Ppu,
        moment: &Moment,
        now: &Now,
    ) -> Result<(), AllocError> {
        let screen = self.writes.screen();
        let last = moment.blank_line();
        if moment.line == last && screen.shows_objects() {
            let rule = objects_rule(picture, last.saturating_sub(1));
            return tell(findings, rule, self.writes.oam_by, 0, now);
        }
        if moment.line == 0 || moment.in_blank() {
            return Ok(());
        }
        self.see_registers(findings, &screen, now)?;
        self.see_backdrop(findings, &screen, picture.cgram()[0], now)?;
        let row = ((moment.line - 1) % 256) as u16;
        self.see_memories(findings, picture, &screen, row, now)
    }

    /// Sees that the step of this time comes, before it is taken: the first of a line is looked at.
    pub fn see_time(
        &mut self,
        findings: &mut Findings,
        bus: &Bus,
        now: &Now,
    ) -> Result<(), AllocError> {
        if now.stamp < self.line_end {
            return Ok(());
        }
        let rate = match now.region {
            Region::Ntsc => CONSOLE_RATE,
            Region::Pal => PAL_CONSOLE_RATE,
        };
        let begun = (now.clocks() / LINE).saturating_mul(LINE);
        self.line_end = begun.saturating_add(LINE).saturating_mul(rate);
        let moment = now.moment();
        let picture = bus.picture();
        if moment.forced || picture.registers().display.brightness == 0 {
            return Ok(());
        }
        self.see_shown(findings, picture, &moment, now)
    }
}
