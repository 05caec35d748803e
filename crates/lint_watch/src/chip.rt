//! Accesses to the registers of the processor's chip, 4016 to 437F.

use crate::watch::{Watch, check_vector, tell};
use console_bus::Bus;
use lint_moments::Now;
use lint_rules::{
    Asked, Findings, Moment, Rule, arithmetic_rule, channel_rule, enable_rule, latch_rule,
    pad_rule, speed_rule, timer_rule,
};
use std::alloc::AllocError;

/// An access of an instruction to a register of the chip.
#[derive(Clone, Copy)]
pub struct ChipAccess {
    /// The register.
    pub register: u16,
    /// The byte on the bus.
    pub byte: u8,
    /// The address of the instruction.
    pub by: u32,
    /// Whether the processor is in emulation mode.
    pub emulation: bool,
}

impl Watch {
    /// Whether auto-read was on when vertical blank began, and the program has not asked 4212 since.
    fn is_auto_read(&self, moment: &Moment) -> bool {
        let was_on = match &self.auto_read {
            Some(since) => since.frame < moment.frame || !since.in_blank(),
            None => false,
        };
        let has_asked = match &self.polled {
            Some(last) => last.frame == moment.frame && last.in_blank(),
            None => false,
        };
        was_on && !has_asked
    }

    /// Returns the rule that an access to a register of the pads breaks.
    fn pad_rule_at(&self, register: u16, writes: bool, moment: &Moment) -> Option<Rule> {
        pad_rule(self.is_auto_read(moment), register, writes, moment)
    }

    /// Takes note of a read of 4212.
    fn poll(&mut self, access: &ChipAccess, now: &Now) -> Option<Rule> {
        self.polled = Some(now.moment());
        if self.polls.add(access.by, now.clocks(), access.byte) {
            Some(Rule::WaitForBusy)
        } else {
            None
        }
    }

    /// Sees a read of a register of the chip.
    pub fn read_chip(
        &mut self,
        findings: &mut Findings,
        access: &ChipAccess,
        now: &Now,
    ) -> Result<(), AllocError> {
        let register = access.register;
        let rule = match register {
            0x4212 => self.poll(access, now),
            0x4214..=0x4217 => arithmetic_rule(self.asked, self.cycle, register, false),
            _ => self.pad_rule_at(register, false, &now.moment()),
        };
        tell(findings, rule, access.by, u32::from(register), now)
    }

    /// Begins a product or a quotient.
    fn ask(&mut self, register: u16) -> Option<Rule> {
        let rule = arithmetic_rule(self.asked, self.cycle, register, true);
        self.asked = Some(Asked {
            quotient: register == 0x4206,
            cycle: self.cycle,
        });
        rule
    }

    /// Takes note of a write of 4200, and checks the vectors of interrupts that it enables.
    fn write_interrupts(
        &mut self,
        findings: &mut Findings,
        bus: &Bus,
        access: &ChipAccess,
        now: &Now,
    ) -> Result<(), AllocError> {
        let (before, byte) = (self.nmitimen, access.byte);
        self.nmitimen = byte;
        if byte % 2 == 0 {
            self.auto_read = None;
        } else if self.auto_read.is_none() {
            self.auto_read = Some(now.moment());
        }
        if byte >= 128 && before < 128 {
            let vector = if access.emulation { 0xfffa } else { 0xffea };
            check_vector(findings, bus, vector, access.by, now)?;
        }
        if byte / 16 % 4 != 0 && before / 16 % 4 == 0 {
            let vector = if access.emulation { 0xfffe } else { 0xffee };
            check_vector(findings, bus, vector, access.by, now)?;
        }
        Ok(())
    }

    /// Takes note of a write of VTIME, and returns the rule that it breaks.
    fn write_vtime(&mut self, access: &ChipAccess, moment: &Moment) -> Option<Rule> {
        self.vtime = if access.register == 0x4209 {
            self.vtime / 256 * 256 + u16::from(access.byte)
        } else {
            self.vtime % 256 + 256 * u16::from(access.byte % 2)
        };
        timer_rule(self.nmitimen / 16 % 4, self.vtime, moment)
    }

    /// Takes note of a write of 420B, and returns the rule that it breaks.
    fn start_dma(&mut self, access: &ChipAccess, moment: &Moment) -> Option<Rule> {
        self.dma_by = access.by;
        self.began_in_blank = moment.is_blank();
        self.past = 0;
        channel_rule(access.byte, self.hdma)
    }

    /// Takes note of a write of 420C, and returns the rule that it breaks.
    fn enable_hdma(&mut self, access: &ChipAccess, moment: &Moment) -> Option<Rule> {
        let before = self.hdma;
        self.hdma = access.byte;
        self.hdma_by = access.by;
        enable_rule(before, access.byte, moment)
    }

    /// Takes note of a write of 4201, and returns the rule that it breaks.
    fn write_wrio(&mut self, byte: u8) -> Option<Rule> {
        let before = self.wrio;
        self.wrio = byte;
        latch_rule(before, byte)
    }

    /// Sees a write to a register of the chip.
    pub fn write_chip(
        &mut self,
        findings: &mut Findings,
        bus: &Bus,
        access: &ChipAccess,
        now: &Now,
    ) -> Result<(), AllocError> {
        let register = access.register;
        if register >= 0x4300 {
            return Ok(());
        }
        let moment = now.moment();
        let rule = match register {
            0x4200 => return self.write_interrupts(findings, bus, access, now),
            0x4201 => self.write_wrio(access.byte),
            0x4203 | 0x4206 => self.ask(register),
            0x4209 | 0x420a => self.write_vtime(access, &moment),
            0x420b => self.start_dma(access, &moment),
            0x420c => self.enable_hdma(access, &moment),
            0x420d => speed_rule(self.map_byte, access.byte),
            _ => self.pad_rule_at(register, true, &moment),
        };
        tell(findings, rule, access.by, u32::from(register), now)
    }
}
