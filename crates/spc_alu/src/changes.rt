ghost use Rattle.std.specs.Prelude.{◌≡◌, ◌+◌, ◌-◌, ◌%◌};
ghost use Rattle.spc_alu.specs.Changes.{
  clear_bits,
  decrement,
  increment,
  result_nz,
  result_nzc,
  set_bits,
  shift_left,
  shift_right,
  rotate_left,
  rotate_right,
};
ghost use Rattle.spc_alu.specs.Status.{with_nz};

use crate::status::{bit_number, with_result};
use spc_tables::CARRY;
use status_bits::{is_set, with_bit};

/// A changed byte, with PSW after the change.
#[derive(Clone, Copy)]
pub struct Changed {
    /// The byte's new value.
    pub value: u8,
    /// The status byte.
    pub psw: u8,
}

/// A value, with N and Z from it.
#[inline(always)]
pub fn with_nz_of(value: u8, psw: u8) -> Changed
    ensures { result ≡ result_nz value psw }
{
    Changed {
        value,
        psw: with_result(value, psw),
    }
}

/// A shifted byte, with N and Z from it, and the bit that fell out as the carry.
#[inline(always)]
fn shifted(value: u8, carry: bool, psw: u8) -> Changed
    ensures { result ≡ result_nzc value carry psw }
{
    Changed {
        value,
        psw: with_bit(with_result(value, psw), CARRY, carry),
    }
}

/// ASL: a shift to the left.
#[tactic(auto, unfolding(crate::specs::Changes::shift_left))]
#[inline(always)]
pub fn shifted_left(psw: u8, m: u8) -> Changed
    ensures { result ≡ shift_left psw m }
{
    let value = (2 * m as u16 % 256) as u8;
    shifted(value, m / 128 % 2 == 1, psw)
}

/// LSR: a shift to the right.
#[tactic(auto, unfolding(crate::specs::Changes::shift_right))]
#[inline(always)]
pub fn shifted_right(psw: u8, m: u8) -> Changed
    ensures { result ≡ shift_right psw m }
{
    shifted(m / 2, m % 2 == 1, psw)
}

/// ROL: a rotation to the left through the carry.
#[tactic(auto, unfolding(crate::specs::Changes::rotate_left))]
#[inline(always)]
pub fn rotated_left(psw: u8, m: u8) -> Changed
    ensures { result ≡ rotate_left psw m }
{
    let carry = bit_number(is_set(psw, CARRY));
    let value = (2 * m as u16 % 256 + carry as u16) as u8;
    shifted(value, m / 128 % 2 == 1, psw)
}

/// ROR: a rotation to the right through the carry.
#[tactic(auto, unfolding(crate::specs::Changes::rotate_right))]
#[inline(always)]
pub fn rotated_right(psw: u8, m: u8) -> Changed
    ensures { result ≡ rotate_right psw m }
{
    let carry = bit_number(is_set(psw, CARRY));
    shifted(m / 2 + 128 * carry, m % 2 == 1, psw)
}

/// INC: one more.
#[tactic(auto, unfolding(crate::specs::Changes::increment))]
#[inline(always)]
pub fn incremented(psw: u8, m: u8) -> Changed
    ensures { result ≡ increment psw m }
{
    let value = ((m as u16 + 1) % 256) as u8;
    with_nz_of(value, psw)
}

/// DEC: one less.
#[tactic(auto, unfolding(crate::specs::Changes::decrement))]
#[inline(always)]
pub fn decremented(psw: u8, m: u8) -> Changed
    ensures { result ≡ decrement psw m }
{
    let value = ((m as u16 + 255) % 256) as u8;
    with_nz_of(value, psw)
}

/// PSW with N and Z of A minus a byte.
#[inline(always)]
fn with_difference(a: u8, psw: u8, m: u8) -> u8
    ensures { result ≡ with_nz ((a + 256 - m) % 256) psw }
{
    let difference = ((a as u16 + 256 - m as u16) % 256) as u8;
    with_result(difference, psw)
}

/// TSET1: the bits of A are set in a byte.
#[tactic(auto, unfolding(crate::specs::Changes::set_bits))]
#[inline(always)]
pub fn bits_set(a: u8, psw: u8, m: u8) -> Changed
    ensures { result ≡ set_bits a psw m }
{
    Changed {
        value: m | a,
        psw: with_difference(a, psw, m),
    }
}

/// TCLR1: the bits of A are cleared in a byte.
#[tactic(auto, unfolding(crate::specs::Changes::clear_bits))]
#[inline(always)]
pub fn bits_cleared(a: u8, psw: u8, m: u8) -> Changed
    ensures { result ≡ clear_bits a psw m }
{
    Changed {
        value: m - (a & m),
        psw: with_difference(a, psw, m),
    }
}
