// Branches, jumps, returns, interrupts, the reset and block moves: where the program continues.
ghost use Rattle.std.specs.Prelude.{◌≡◌, ◌<◌};
ghost use Rattle.cpu_alu.specs.Flow.{
  branch,
  far_relative,
  interrupt,
  jump,
  moved_block,
  relative,
  reset,
  return_from_interrupt,
  taken,
};

use crate::registers::status_set;
use crate::width::index_numbers;
use cpu_tables::{CARRY, DECIMAL, IRQ_DISABLE, NEGATIVE, OVERFLOW, Op, Regs, ZERO};
use status_bits::{is_set, with_bit};

/// Whether a branch is taken, by the status byte. No operation but a branch is.
#[tactic(auto, unfolding(crate::specs::Flow::taken))]
#[inline(always)]
pub fn is_taken(op: Op, p: u8) -> bool
    ensures { result ≡ taken op p }
{
    match op {
        Op::Bpl => !is_set(p, NEGATIVE),
        Op::Bmi => is_set(p, NEGATIVE),
        Op::Bvc => !is_set(p, OVERFLOW),
        Op::Bvs => is_set(p, OVERFLOW),
        Op::Bcc => !is_set(p, CARRY),
        Op::Bcs => is_set(p, CARRY),
        Op::Bne => !is_set(p, ZERO),
        Op::Beq => is_set(p, ZERO),
        Op::Bra | Op::Brl => true,
        _ => false,
    }
}

/// Returns the address at a signed byte's distance from the program counter, in its bank.
#[tactic(auto, unfolding(crate::specs::Flow::relative))]
#[inline(always)]
pub fn relative(pc: u16, byte: u8) -> u16
    ensures { result ≡ relative pc byte }
{
    let sign = if byte < 128 { 0 } else { 65280 };
    ((pc as u32 + byte as u32 + sign) % 65536) as u16
}

/// Returns the address at a distance of two bytes from the program counter, in its bank.
#[inline(always)]
pub fn far_place(pc: u16, word: u16) -> u16
    ensures { result ≡ far_relative pc word }
{
    ((pc as u32 + word as u32) % 65536) as u16
}

/// Returns the registers after a jump within the program bank.
#[inline(always)]
pub fn jumped(regs: Regs, target: u16) -> Regs
    ensures { result ≡ jump regs target }
{
    Regs { pc: target, ..regs }
}

/// Returns the registers after a branch by a signed byte, taken or not.
#[inline(always)]
pub fn branched(op: Op, regs: Regs, word: u16) -> Regs
    ensures { result ≡ branch op regs word }
{
    if is_taken(op, regs.p) {
        jumped(regs, relative(regs.pc, (word % 256) as u8))
    } else {
        regs
    }
}

/// RTI: returns the registers with the pulled status and the pulled program counter.
#[tactic(auto, unfolding(crate::specs::Flow::return_from_interrupt))]
#[inline(always)]
pub fn returned_from_interrupt(regs: Regs, target: u16) -> Regs
    ensures { result ≡ return_from_interrupt regs target }
{
    jumped(status_set(regs, regs.p), target)
}

/// BRK, COP and the interrupts: returns the registers at the vector, in bank 0, with interrupts disabled and decimal
/// off.
#[tactic(auto, unfolding(crate::specs::Flow::interrupt))]
#[inline(always)]
pub fn interrupted(regs: Regs, target: u16) -> Regs
    ensures { result ≡ interrupt regs target }
{
    let p = with_bit(with_bit(regs.p, IRQ_DISABLE, true), DECIMAL, false);
    Regs {
        pc: target,
        pbr: 0,
        p,
        ..regs
    }
}

/// Returns the registers after a reset, at its vector.
#[tactic(auto, unfolding(crate::specs::Flow::reset))]
#[inline(always)]
pub fn after_reset(target: u16) -> Regs
    ensures { result ≡ reset target }
{
    Regs {
        a: 0,
        x: 0,
        y: 0,
        s: 0x01ff,
        d: 0,
        pc: target,
        pbr: 0,
        dbr: 0,
        p: 0x34,
        e: true,
    }
}

/// MVN and MVP: returns the registers after one byte of a block has moved.
#[tactic(auto, unfolding(crate::specs::Flow::moved_block))]
#[inline(always)]
pub fn block_moved(step: u16, regs: Regs) -> Regs
    ensures { result ≡ moved_block step regs }
{
    let size = index_numbers(regs);
    let left = ((regs.a as u32 + 65535) % 65536) as u16;
    let again = ((regs.pc as u32 + 65533) % 65536) as u16;
    Regs {
        a: left,
        x: ((regs.x as u32 + step as u32) % size) as u16,
        y: ((regs.y as u32 + step as u32) % size) as u16,
        pc: if left == 65535 { regs.pc } else { again },
        ..regs
    }
}
