// Shifts, rotations, increments and bit changes of A or a memory operand.
ghost use Rattle.std.specs.Prelude.{◌≡◌, ◌⊎◌, ◌<◌, IsTrue};
ghost use Rattle.cpu_alu.specs.Changes.{
  clear_bits,
  decrement,
  increment,
  operand,
  set_bits,
  shift_left,
  shift_right,
  rotate_left,
  rotate_right,
  with_change,
};

use crate::width::{a_with, accumulator_value, bit_number, memory_numbers, with_result};
use cpu_tables::{CARRY, Regs, ZERO};
use status_bits::{is_set, with_bit};

/// A changed operand, with the status byte of the change.
#[derive(Clone, Copy)]
pub struct Changed {
    /// The operand's new value.
    pub value: u16,
    /// The status byte.
    pub p: u8,
}

/// ASL: a shift to the left.
#[tactic(auto, unfolding(crate::specs::Changes::shift_left))]
#[inline(always)]
pub fn shifted_left(size: u32, p: u8, m: u32) -> Changed
    requires width { (size ≡ 256) ⊎ (size ≡ 65536) }
    requires fits { m < size }
    ensures { result ≡ shift_left size p m }
{
    let value = 2 * m % size;
    let p = with_bit(with_result(size, value, p), CARRY, m / (size / 2) % 2 == 1);
    Changed {
        value: value as u16,
        p,
    }
}

/// LSR: a shift to the right.
#[tactic(auto, unfolding(crate::specs::Changes::shift_right))]
#[inline(always)]
pub fn shifted_right(size: u32, p: u8, m: u32) -> Changed
    requires width { (size ≡ 256) ⊎ (size ≡ 65536) }
    requires fits { m < size }
    ensures { result ≡ shift_right size p m }
{
    let value = m / 2;
    let p = with_bit(with_result(size, value, p), CARRY, m % 2 == 1);
    Changed {
        value: value as u16,
        p,
    }
}

/// ROL: a rotation to the left through the carry.
#[tactic(auto, unfolding(crate::specs::Changes::rotate_left))]
#[inline(always)]
pub fn rotated_left(size: u32, p: u8, m: u32) -> Changed
    requires width { (size ≡ 256) ⊎ (size ≡ 65536) }
    requires fits { m < size }
    ensures { result ≡ rotate_left size p m }
{
    let value = 2 * m % size + bit_number(is_set(p, CARRY));
    let p = with_bit(with_result(size, value, p), CARRY, m / (size / 2) % 2 == 1);
    Changed {
        value: value as u16,
        p,
    }
}

/// ROR: a rotation to the right through the carry.
#[tactic(auto, unfolding(crate::specs::Changes::rotate_right))]
#[inline(always)]
pub fn rotated_right(size: u32, p: u8, m: u32) -> Changed
    requires width { (size ≡ 256) ⊎ (size ≡ 65536) }
    requires fits { m < size }
    ensures { result ≡ rotate_right size p m }
{
    let value = m / 2 + size / 2 * bit_number(is_set(p, CARRY));
    let p = with_bit(with_result(size, value, p), CARRY, m % 2 == 1);
    Changed {
        value: value as u16,
        p,
    }
}

/// INC: one more.
#[tactic(auto, unfolding(crate::specs::Changes::increment))]
#[inline(always)]
pub fn incremented(size: u32, p: u8, m: u32) -> Changed
    requires width { (size ≡ 256) ⊎ (size ≡ 65536) }
    requires fits { m < size }
    ensures { result ≡ increment size p m }
{
    let value = (m + 1) % size;
    Changed {
        value: value as u16,
        p: with_result(size, value, p),
    }
}

/// DEC: one less.
#[tactic(auto, unfolding(crate::specs::Changes::decrement))]
#[inline(always)]
pub fn decremented(size: u32, p: u8, m: u32) -> Changed
    requires width { (size ≡ 256) ⊎ (size ≡ 65536) }
    requires fits { m < size }
    ensures { result ≡ decrement size p m }
{
    let value = (m + size - 1) % size;
    Changed {
        value: value as u16,
        p: with_result(size, value, p),
    }
}

/// TSB: the bits of A are set in the operand.
#[tactic(auto, unfolding(crate::specs::Changes::set_bits))]
#[inline(always)]
pub fn bits_set(a: u16, p: u8, m: u16) -> Changed
    ensures { result ≡ set_bits a p m }
{
    Changed {
        value: m | a,
        p: with_bit(p, ZERO, a & m == 0),
    }
}

/// TRB: the bits of A are cleared in the operand.
#[tactic(auto, unfolding(crate::specs::Changes::clear_bits))]
#[inline(always)]
pub fn bits_cleared(a: u16, p: u8, m: u16) -> Changed
    ensures { result ≡ clear_bits a p m }
{
    Changed {
        value: m - (a & m),
        p: with_bit(p, ZERO, a & m == 0),
    }
}

/// Returns the operand of a change: A itself, or what was read.
#[inline(always)]
pub fn change_operand(on_a: bool, regs: Regs, word: u16) -> u32
    ensures { result ≡ operand on_a regs word }
{
    if on_a {
        accumulator_value(regs)
    } else {
        word as u32 % memory_numbers(regs)
    }
}

/// Returns the registers after a change: the status, and A if it was the operand.
#[tactic(auto, unfolding(crate::specs::Changes::with_change))]
#[inline(always)]
pub fn with_changed(on_a: bool, regs: Regs, changed: Changed) -> Regs
    ensures { result ≡ with_change on_a regs changed }
{
    let a = if on_a {
        a_with(regs, changed.value as u32)
    } else {
        regs.a
    };
    Regs {
        a,
        p: changed.p,
        ..regs
    }
}
