ghost use Rattle.std.specs.Prelude.{◌≡◌, IsTrue};
ghost use Rattle.status_bits.specs.StatusBits.{is_weight};
ghost use Rattle.spc_alu.specs.Bits.{
  bit_number,
  bit_written,
  carry_after,
  differ,
  is_bit,
  put_bit,
  weight,
  with_bit_carry,
};

use crate::status::put_flag;
use spc_tables::{CARRY, SpcMode, SpcOp, SpcRegs};
use status_bits::{is_set, with_bit};

/// The weight of a bit by its number.
#[tactic(auto, unfolding(crate::specs::Bits::weight))]
#[inline(always)]
pub fn weight_of(number: u8) -> u8
    ensures value { result ≡ weight number }
    ensures weight { IsTrue (is_weight result) }
{
    match number {
        0 => 1,
        1 => 2,
        2 => 4,
        3 => 8,
        4 => 16,
        5 => 32,
        6 => 64,
        _ => 128,
    }
}

/// Whether a bit of a byte is set.
#[inline(always)]
pub fn has_bit(byte: u8, number: u8) -> bool
    ensures { result ≡ is_bit byte number }
{
    is_set(byte, weight_of(number))
}

/// A byte with a bit on or off.
#[inline(always)]
pub fn with_bit_at(byte: u8, number: u8, on: bool) -> u8
    ensures { result ≡ put_bit byte number on }
{
    with_bit(byte, weight_of(number), on)
}

/// The number of the bit that an opcode names.
#[inline(always)]
pub fn number_in(mode: SpcMode) -> u8
    ensures { result ≡ bit_number mode }
{
    match mode {
        SpcMode::DirectBit(number) => number,
        SpcMode::DirectBitRelative(number) => number,
        _ => 0,
    }
}

/// C after an operation between it and a bit.
#[tactic(auto, unfolding(crate::specs::Bits::carry_after))]
#[inline(always)]
fn carry_with(op: SpcOp, carry: bool, bit: bool) -> bool
    ensures { result ≡ carry_after op carry bit }
{
    match op {
        SpcOp::Or1 => carry || bit,
        SpcOp::OrNot1 => carry || !bit,
        SpcOp::And1 => carry && bit,
        SpcOp::AndNot1 => carry && !bit,
        SpcOp::Eor1 => if carry { !bit } else { bit },
        SpcOp::MovC1 => bit,
        _ => carry,
    }
}

/// The registers after an operation between C and a bit of a byte.
#[tactic(auto, unfolding(crate::specs::Bits::with_bit_carry))]
#[inline(always)]
pub fn carry_of_bit(regs: &mut SpcRegs, op: SpcOp, number: u8, byte: u8)
    ensures { regs.new ≡ with_bit_carry op regs.old number byte }
{
    let carry = carry_with(op, is_set(regs.psw, CARRY), has_bit(byte, number));
    put_flag(regs, CARRY, carry);
}

/// The byte that MOV1 with C as the bit, or NOT1, writes back.
#[tactic(auto, unfolding(crate::specs::Bits::bit_written))]
#[inline(always)]
pub fn byte_with_bit(op: SpcOp, psw: u8, number: u8, byte: u8) -> u8
    ensures { result ≡ bit_written op psw number byte }
{
    match op {
        SpcOp::StoreC1 => with_bit_at(byte, number, is_set(psw, CARRY)),
        _ => with_bit_at(byte, number, !has_bit(byte, number)),
    }
}
