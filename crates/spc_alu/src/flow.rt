ghost use Rattle.std.specs.Prelude.{◌≡◌};
ghost use Rattle.spc_alu.specs.Flow.{counted, relative, taken, taken_by, with_break};

use crate::bits::{has_bit, number_in};
use spc_tables::{
    BREAK, CARRY, INTERRUPT_ENABLE, NEGATIVE, OVERFLOW, SpcMode, SpcOp, SpcRegs, ZERO,
};
use status_bits::{is_set, with_bit};

/// Whether a branch is taken, by PSW.
#[tactic(auto, unfolding(crate::specs::Flow::taken))]
#[inline(always)]
pub fn is_taken(op: SpcOp, psw: u8) -> bool
    ensures { result ≡ taken op psw }
{
    match op {
        SpcOp::Bpl => !is_set(psw, NEGATIVE),
        SpcOp::Bmi => is_set(psw, NEGATIVE),
        SpcOp::Bvc => !is_set(psw, OVERFLOW),
        SpcOp::Bvs => is_set(psw, OVERFLOW),
        SpcOp::Bcc => !is_set(psw, CARRY),
        SpcOp::Bcs => is_set(psw, CARRY),
        SpcOp::Bne => !is_set(psw, ZERO),
        SpcOp::Beq => is_set(psw, ZERO),
        SpcOp::Bra => true,
        _ => false,
    }
}

/// DBNZ: one less, modulo 256.
#[inline(always)]
pub fn counted_down(byte: u8) -> u8
    ensures { result ≡ counted byte }
{
    ((byte as u16 + 255) % 256) as u8
}

/// Whether a branch is taken, by A and a byte of memory.
#[tactic(auto, unfolding(crate::specs::Flow::taken_by))]
#[inline(always)]
pub fn is_taken_by(op: SpcOp, mode: SpcMode, a: u8, byte: u8) -> bool
    ensures { result ≡ taken_by op mode a byte }
{
    match op {
        SpcOp::Bbs => has_bit(byte, number_in(mode)),
        SpcOp::Bbc => !has_bit(byte, number_in(mode)),
        SpcOp::Cbne => byte != a,
        SpcOp::Dbnz => counted_down(byte) != 0,
        _ => false,
    }
}

/// The address at a signed byte's distance from the program counter.
#[tactic(auto, unfolding(crate::specs::Flow::relative))]
#[inline(always)]
pub fn place_at(pc: u16, distance: u8) -> u16
    ensures { result ≡ relative pc distance }
{
    let sign = if distance < 128 { 0 } else { 65280 };
    ((pc as u32 + distance as u32 + sign) % 65536) as u16
}

/// BRK: B is set, and I cleared.
#[tactic(auto, unfolding(crate::specs::Flow::with_break))]
#[inline(always)]
pub fn break_set(regs: SpcRegs) -> SpcRegs
    ensures { result ≡ with_break regs }
{
    SpcRegs {
        psw: with_bit(with_bit(regs.psw, BREAK, true), INTERRUPT_ENABLE, false),
        ..regs
    }
}
