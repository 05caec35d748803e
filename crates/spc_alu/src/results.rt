ghost use Rattle.std.specs.Prelude.{◌≡◌, ◌+◌, ◌%◌};
ghost use Rattle.spc_alu.specs.Results.{
  changed,
  changed_by_a,
  combined,
  internal,
  loaded,
  popped,
  stored,
  unchanged,
  with_a,
  word_loaded,
};

use crate::arithmetic::{
    adjusted, adjusted_after_subtraction, digits_exchanged, divided, multiplied,
};
use crate::bits::{number_in, with_bit_at};
use crate::changes::{
    Changed, bits_cleared, bits_set, decremented, incremented, rotated_left, rotated_right,
    shifted_left, shifted_right, with_nz_of,
};
use crate::status::{put_a, put_flag, put_x, put_y};
use crate::sums::{added, compared, subtracted};
use crate::words::{word_added, word_compared, word_subtracted, ya_loaded};
use spc_tables::{
    CARRY, DIRECT_PAGE, HALF_CARRY, INTERRUPT_ENABLE, OVERFLOW, SpcMode, SpcOp, SpcRegs,
};
use status_bits::is_set;

/// A value that stays, with PSW.
#[inline(always)]
fn as_it_was(psw: u8, byte: u8) -> Changed
    ensures { result ≡ unchanged psw byte }
{
    Changed { value: byte, psw }
}

/// OR, AND, EOR, ADC, SBC and CMP between two operands, the first of which takes the result.
#[tactic(auto, unfolding(crate::specs::Results::combined))]
#[inline(always)]
pub fn combine(op: SpcOp, psw: u8, first: u8, second: u8) -> Changed
    ensures { result ≡ combined op psw first second }
{
    match op {
        SpcOp::Or => with_nz_of(first | second, psw),
        SpcOp::And => with_nz_of(first & second, psw),
        SpcOp::Eor => with_nz_of(first ^ second, psw),
        SpcOp::Adc => added(psw, first, second),
        SpcOp::Sbc => subtracted(psw, first, second),
        SpcOp::Cmp => Changed {
            value: first,
            psw: compared(psw, first, second),
        },
        _ => as_it_was(psw, first),
    }
}

/// Puts a changed value into A.
#[inline(always)]
fn put_changed(regs: &mut SpcRegs, changed: Changed)
    ensures { regs.new ≡ with_a regs.old changed }
{
    regs.a = changed.value;
    regs.psw = changed.psw;
}

/// Applies an operation between a register and a byte that was read.
#[tactic(auto, unfolding(crate::specs::Results::loaded))]
#[inline(always)]
pub fn load(regs: &mut SpcRegs, op: SpcOp, byte: u8)
    ensures { regs.new ≡ loaded op regs.old byte }
{
    match op {
        SpcOp::MovA => put_a(regs, byte),
        SpcOp::MovX => put_x(regs, byte),
        SpcOp::MovY => put_y(regs, byte),
        SpcOp::CmpX => regs.psw = compared(regs.psw, regs.x, byte),
        SpcOp::CmpY => regs.psw = compared(regs.psw, regs.y, byte),
        _ => {
            let changed = combine(op, regs.psw, regs.a, byte);
            put_changed(regs, changed);
        }
    }
}

/// Changes a byte, in memory or in A.
#[tactic(auto, unfolding(crate::specs::Results::changed))]
#[inline(always)]
pub fn change(op: SpcOp, mode: SpcMode, psw: u8, byte: u8) -> Changed
    ensures { result ≡ changed op mode psw byte }
{
    match op {
        SpcOp::Asl => shifted_left(psw, byte),
        SpcOp::Lsr => shifted_right(psw, byte),
        SpcOp::Rol => rotated_left(psw, byte),
        SpcOp::Ror => rotated_right(psw, byte),
        SpcOp::Inc => incremented(psw, byte),
        SpcOp::Dec => decremented(psw, byte),
        SpcOp::Set1 => as_it_was(psw, with_bit_at(byte, number_in(mode), true)),
        SpcOp::Clr1 => as_it_was(psw, with_bit_at(byte, number_in(mode), false)),
        _ => as_it_was(psw, byte),
    }
}

/// Changes a byte by the bits of A, as TSET1 and TCLR1 do.
#[tactic(auto, unfolding(crate::specs::Results::changed_by_a))]
#[inline(always)]
pub fn change_by_a(op: SpcOp, regs: SpcRegs, byte: u8) -> Changed
    ensures { result ≡ changed_by_a op regs byte }
{
    match op {
        SpcOp::Tset1 => bits_set(regs.a, regs.psw, byte),
        SpcOp::Tclr1 => bits_cleared(regs.a, regs.psw, byte),
        _ => as_it_was(regs.psw, byte),
    }
}

/// The byte that is stored or pushed.
#[tactic(auto, unfolding(crate::specs::Results::stored))]
#[inline(always)]
pub fn stored_byte(op: SpcOp, regs: SpcRegs) -> u8
    ensures { result ≡ stored op regs }
{
    match op {
        SpcOp::StoreA => regs.a,
        SpcOp::StoreX => regs.x,
        SpcOp::StoreY => regs.y,
        SpcOp::PushA => regs.a,
        SpcOp::PushX => regs.x,
        SpcOp::PushY => regs.y,
        SpcOp::PushPsw => regs.psw,
        _ => 0,
    }
}

/// Puts a byte that was pulled into one of the registers.
#[tactic(auto, unfolding(crate::specs::Results::popped))]
#[inline(always)]
pub fn pop(regs: &mut SpcRegs, op: SpcOp, byte: u8)
    ensures { regs.new ≡ popped op regs.old byte }
{
    match op {
        SpcOp::PopA => regs.a = byte,
        SpcOp::PopX => regs.x = byte,
        SpcOp::PopY => regs.y = byte,
        SpcOp::PopPsw => regs.psw = byte,
        _ => {}
    }
}

/// Applies an operation between YA and a word that was read.
#[tactic(auto, unfolding(crate::specs::Results::word_loaded))]
#[inline(always)]
pub fn load_word(regs: &mut SpcRegs, op: SpcOp, word: u16)
    ensures { regs.new ≡ word_loaded op regs.old word }
{
    match op {
        SpcOp::MovwYa => *regs = ya_loaded(*regs, word),
        SpcOp::Addw => *regs = word_added(*regs, word),
        SpcOp::Subw => *regs = word_subtracted(*regs, word),
        SpcOp::Cmpw => *regs = word_compared(*regs, word),
        _ => {}
    }
}

/// One more, modulo 256.
#[inline(always)]
fn one_more(value: u8) -> u8
    ensures { result ≡ (value + 1) % 256 }
{
    ((value as u16 + 1) % 256) as u8
}

/// One less, modulo 256.
#[inline(always)]
fn one_less(value: u8) -> u8
    ensures { result ≡ (value + 255) % 256 }
{
    ((value as u16 + 255) % 256) as u8
}

/// A shift or a count of A.
#[inline(always)]
fn change_a(regs: &mut SpcRegs, op: SpcOp, mode: SpcMode)
    ensures { regs.new ≡ with_a regs.old (changed op mode regs.old.psw regs.old.a) }
{
    let changed = change(op, mode, regs.psw, regs.a);
    put_changed(regs, changed);
}

/// Applies what happens inside the processor, in registers and flags alone.
#[tactic(auto, unfolding(crate::specs::Results::internal))]
#[inline(always)]
pub fn work_internally(regs: &mut SpcRegs, op: SpcOp, mode: SpcMode)
    ensures { regs.new ≡ internal op mode regs.old }
{
    match op {
        // Transfers.
        SpcOp::MovAX => put_a(regs, regs.x),
        SpcOp::MovAY => put_a(regs, regs.y),
        SpcOp::MovXA => put_x(regs, regs.a),
        SpcOp::MovYA => put_y(regs, regs.a),
        SpcOp::MovXSp => put_x(regs, regs.sp),
        SpcOp::MovSpX => regs.sp = regs.x,
        // Shifts and counts.
        SpcOp::Asl => change_a(regs, SpcOp::Asl, mode),
        SpcOp::Lsr => change_a(regs, SpcOp::Lsr, mode),
        SpcOp::Rol => change_a(regs, SpcOp::Rol, mode),
        SpcOp::Ror => change_a(regs, SpcOp::Ror, mode),
        SpcOp::Inc => change_a(regs, SpcOp::Inc, mode),
        SpcOp::Dec => change_a(regs, SpcOp::Dec, mode),
        SpcOp::IncX => put_x(regs, one_more(regs.x)),
        SpcOp::IncY => put_y(regs, one_more(regs.y)),
        SpcOp::DecX => put_x(regs, one_less(regs.x)),
        SpcOp::DecY => put_y(regs, one_less(regs.y)),
        // Multiplication, division, decimal digits.
        SpcOp::Mul => *regs = multiplied(*regs),
        SpcOp::Div => *regs = divided(*regs),
        SpcOp::Daa => *regs = adjusted(*regs),
        SpcOp::Das => *regs = adjusted_after_subtraction(*regs),
        SpcOp::Xcn => *regs = digits_exchanged(*regs),
        // Flags.
        SpcOp::Clrp => put_flag(regs, DIRECT_PAGE, false),
        SpcOp::Setp => put_flag(regs, DIRECT_PAGE, true),
        SpcOp::Clrc => put_flag(regs, CARRY, false),
        SpcOp::Setc => put_flag(regs, CARRY, true),
        SpcOp::Notc => put_flag(regs, CARRY, !is_set(regs.psw, CARRY)),
        SpcOp::Clrv => {
            put_flag(regs, OVERFLOW, false);
            put_flag(regs, HALF_CARRY, false);
        }
        SpcOp::Ei => put_flag(regs, INTERRUPT_ENABLE, true),
        SpcOp::Di => put_flag(regs, INTERRUPT_ENABLE, false),
        _ => {}
    }
}
