ghost use Rattle.std.specs.Prelude.{◌≡◌, ◌<◌, IsTrue};
ghost use Rattle.status_bits.specs.StatusBits.{is_weight};
ghost use Rattle.spc_alu.specs.Status.{
  bit_of,
  load_a,
  load_x,
  load_y,
  with_flag,
  with_nz,
  with_nz_word,
};

use spc_tables::{NEGATIVE, SpcRegs, ZERO};
use status_bits::with_bit;

/// A flag as a number.
#[inline(always)]
pub fn bit_number(on: bool) -> u8
    ensures value { result ≡ bit_of on }
    ensures small { result < 2 }
{
    if on { 1 } else { 0 }
}

/// PSW with N and Z from a byte.
#[tactic(auto, unfolding(crate::specs::Status::with_nz))]
#[inline(always)]
pub fn with_result(value: u8, psw: u8) -> u8
    ensures { result ≡ with_nz value psw }
{
    with_bit(
        with_bit(psw, ZERO, value == 0),
        NEGATIVE,
        value / 128 % 2 == 1,
    )
}

/// PSW with N and Z from a word.
#[tactic(auto, unfolding(crate::specs::Status::with_nz_word))]
#[inline(always)]
pub fn with_word_result(value: u16, psw: u8) -> u8
    ensures { result ≡ with_nz_word value psw }
{
    with_bit(
        with_bit(psw, ZERO, value == 0),
        NEGATIVE,
        value / 32768 % 2 == 1,
    )
}

/// Loads a byte into A, and sets N and Z by it.
#[tactic(auto, unfolding(crate::specs::Status::load_a))]
#[inline(always)]
pub fn a_loaded(regs: SpcRegs, value: u8) -> SpcRegs
    ensures { result ≡ load_a regs value }
{
    SpcRegs {
        a: value,
        psw: with_result(value, regs.psw),
        ..regs
    }
}

/// Loads a byte into A in place, and sets N and Z by it.
#[tactic(auto, unfolding(crate::specs::Status::load_a))]
#[inline(always)]
pub fn put_a(regs: &mut SpcRegs, value: u8)
    ensures { regs.new ≡ load_a regs.old value }
{
    regs.a = value;
    regs.psw = with_result(value, regs.psw);
}

/// Loads a byte into X in place, and sets N and Z by it.
#[tactic(auto, unfolding(crate::specs::Status::load_x))]
#[inline(always)]
pub fn put_x(regs: &mut SpcRegs, value: u8)
    ensures { regs.new ≡ load_x regs.old value }
{
    regs.x = value;
    regs.psw = with_result(value, regs.psw);
}

/// Loads a byte into Y in place, and sets N and Z by it.
#[tactic(auto, unfolding(crate::specs::Status::load_y))]
#[inline(always)]
pub fn put_y(regs: &mut SpcRegs, value: u8)
    ensures { regs.new ≡ load_y regs.old value }
{
    regs.y = value;
    regs.psw = with_result(value, regs.psw);
}

/// Sets or clears a flag in place.
#[inline(always)]
pub fn put_flag(regs: &mut SpcRegs, weight: u8, on: bool)
    requires { IsTrue (is_weight weight) }
    ensures { regs.new ≡ with_flag regs.old weight on }
{
    regs.psw = with_bit(regs.psw, weight, on);
}

/// Sets or clears a flag.
#[inline(always)]
pub fn flag_set(regs: SpcRegs, weight: u8, on: bool) -> SpcRegs
    requires { IsTrue (is_weight weight) }
    ensures { result ≡ with_flag regs weight on }
{
    SpcRegs {
        psw: with_bit(regs.psw, weight, on),
        ..regs
    }
}
