//! Each step of the console side, as the rules see it.

use crate::chip::ChipAccess;
use crate::seen::{Kind, Seen};
use crate::watch::{Watch, at_of, check_b, tell};
use cart_map::Place;
use console_bus::Bus;
use dma_hdma::Move;
use lint_moments::Now;
use lint_rules::{
    Access, Findings, address_rule, opcode_rule, picture_rule, stack_rule, transfer_rule,
};
use std::alloc::AllocError;

/// Returns the access to a register of the chip that a step is.
fn chip_access(seen: &Seen, register: u16) -> ChipAccess {
    ChipAccess {
        register,
        byte: seen.byte,
        by: seen.by(),
        emulation: seen.regs.e,
    }
}

impl Watch {
    /// Sees the fetch of a byte of an instruction.
    fn see_fetch(
        &mut self,
        findings: &mut Findings,
        seen: &Seen,
        now: &Now,
    ) -> Result<(), AllocError> {
        self.count_cycle();
        let rule = address_rule(Access::Fetch, at_of(seen.place));
        tell(findings, rule, seen.by(), seen.address, now)?;
        self.read_memory(findings, seen.place, seen.address, seen.by(), now)
    }

    /// Sees the fetch of an opcode.
    fn see_opcode(
        &mut self,
        findings: &mut Findings,
        seen: &Seen,
        now: &Now,
    ) -> Result<(), AllocError> {
        self.see_fetch(findings, seen, now)?;
        tell(findings, opcode_rule(seen.byte), seen.by(), 0, now)?;
        self.see_stack(findings, seen, now)?;
        self.last_by = seen.by();
        Ok(())
    }

    /// Sees the stack pointer with which an instruction begins. The instruction before it is told, once until the pointer is back.
    fn see_stack(
        &mut self,
        findings: &mut Findings,
        seen: &Seen,
        now: &Now,
    ) -> Result<(), AllocError> {
        let pointer = seen.regs.s;
        let rule = stack_rule(pointer);
        let was_out = self.is_stack_out;
        self.is_stack_out = rule.is_some();
        if was_out {
            return Ok(());
        }
        tell(findings, rule, self.last_by, u32::from(pointer), now)
    }

    /// Sees a read of the processor.
    fn see_read(
        &mut self,
        findings: &mut Findings,
        seen: &Seen,
        now: &Now,
    ) -> Result<(), AllocError> {
        self.count_cycle();
        match seen.place {
            Place::Wram(_) | Place::Ram(_) => {
                self.read_memory(findings, seen.place, seen.address, seen.by(), now)
            }
            Place::BBus(register) => self.read_b(findings, register, seen.by(), now),
            Place::Cpu(register) => { self.read_chip(findings, &chip_access(seen, register), now) }
            place => {
                let rule = address_rule(Access::Read, at_of(place));
                tell(findings, rule, seen.by(), seen.address, now)
            }
        }
    }

    /// Sees a write of the processor.
    fn see_write(
        &mut self,
        findings: &mut Findings,
        bus: &Bus,
        seen: &Seen,
        now: &Now,
    ) -> Result<(), AllocError> {
        self.count_cycle();
        match seen.place {
            Place::Wram(_) | Place::Ram(_) => {
                self.write_memory(seen.place);
                Ok(())
            }
            Place::BBus(register) => self.write_b(findings, register, seen.byte, seen.by(), now),
            Place::Cpu(register) => {
                self.write_chip(findings, bus, &chip_access(seen, register), now)
            }
            place => {
                let rule = address_rule(Access::Write, at_of(place));
                tell(findings, rule, seen.by(), seen.address, now)
            }
        }
    }

    /// Sees a byte of a transfer that goes to a register of the B bus.
    fn move_to_b(
        &mut self,
        findings: &mut Findings,
        port: u8,
        byte: u8,
        is_dma: bool,
        now: &Now,
    ) -> Result<(), AllocError> {
        let by = self.mover(is_dma);
        self.note_b(port, byte, by, now);
        if is_dma && self.began_in_blank {
            if picture_rule(port, true, &now.moment()).is_some() {
                return self.tell_past(findings, 0x2100 + u32::from(port), now);
            }
        }
        check_b(findings, port, byte, by, now)
    }

    /// Returns the instruction that began DMA, or that enabled HDMA.
    fn mover(&self, is_dma: bool) -> u32 {
        if is_dma { self.dma_by } else { self.hdma_by }
    }

    /// Sees a byte of a transfer.
    fn see_move(
        &mut self,
        findings: &mut Findings,
        seen: &Seen,
        due: Move,
        is_dma: bool,
        now: &Now,
    ) -> Result<(), AllocError> {
        let by = self.mover(is_dma);
        let is_wram = match seen.place {
            Place::Wram(_) => true,
            _ => false,
        };
        let port = match due {
            Move::Load { .. } => 0,
            Move::ToB { port, .. } => port,
            Move::ToA { port, .. } => port,
        };
        let rule = transfer_rule(seen.address, is_wram, port);
        tell(findings, rule, by, seen.address, now)?;
        match due {
            Move::ToA { port, .. } => {
                self.write_memory(seen.place);
                self.read_b(findings, port, by, now)
            }
            _ => {
                self.read_memory(findings, seen.place, seen.address, by, now)?;
                self.end_move(findings, seen, due, is_dma, now)
            }
        }
    }

    /// Sees where a byte of a transfer goes that was read on the A side.
    fn end_move(
        &mut self,
        findings: &mut Findings,
        seen: &Seen,
        due: Move,
        is_dma: bool,
        now: &Now,
    ) -> Result<(), AllocError> {
        match due {
            Move::ToB { port, .. } => self.move_to_b(findings, port, seen.byte, is_dma, now),
            _ => Ok(()),
        }
    }

    /// Sees a step of the console side.
    pub fn see(
        &mut self,
        findings: &mut Findings,
        bus: &Bus,
        seen: &Seen,
        now: &Now,
    ) -> Result<(), AllocError> {
        match seen.kind {
            Kind::Opcode => self.see_opcode(findings, seen, now),
            Kind::Fetch => self.see_fetch(findings, seen, now),
            Kind::Read => self.see_read(findings, seen, now),
            Kind::Write => self.see_write(findings, bus, seen, now),
            Kind::Inner => {
                self.count_cycle();
                Ok(())
            }
            Kind::Dma(due) => self.see_move(findings, seen, due, true, now),
            Kind::Hdma(due) => self.see_move(findings, seen, due, false, now),
            Kind::Reset => {
                self.reset();
                Ok(())
            }
            Kind::Refresh => Ok(()),
        }
    }
}
