ghost use Rattle.std.specs.Prelude.{◌≡◌, ◌-◌};
ghost use Rattle.spc_alu.specs.Sums.{add, compare, overflow, subtract};

use crate::changes::Changed;
use crate::status::{bit_number, with_result};
use spc_tables::{CARRY, HALF_CARRY, OVERFLOW};
use status_bits::{is_set, with_bit};

/// Whether the signed sum of two bytes does not fit a byte.
#[inline(always)]
fn has_overflow(a: u8, m: u8, sum: u16) -> bool
    ensures { result ≡ overflow a m sum }
{
    let sign = sum / 128 % 2;
    sign != a as u16 / 128 % 2 && sign != m as u16 / 128 % 2
}

/// ADC: the sum of two bytes and the carry.
#[tactic(auto, unfolding(crate::specs::Sums::add))]
#[inline(always)]
pub fn added(psw: u8, a: u8, m: u8) -> Changed
    ensures { result ≡ add psw a m }
{
    let carry = bit_number(is_set(psw, CARRY));
    let sum = a as u16 + m as u16 + carry as u16;
    let value = (sum % 256) as u8;
    let with_carry = with_bit(with_result(value, psw), CARRY, sum >= 256);
    let with_half = with_bit(with_carry, HALF_CARRY, a % 16 + m % 16 + carry >= 16);
    Changed {
        value,
        psw: with_bit(with_half, OVERFLOW, has_overflow(a, m, sum)),
    }
}

/// SBC: the sum of a byte, the complement of another, and the carry.
#[tactic(auto, unfolding(crate::specs::Sums::subtract))]
#[inline(always)]
pub fn subtracted(psw: u8, a: u8, m: u8) -> Changed
    ensures { result ≡ subtract psw a m }
{
    added(psw, a, 255 - m)
}

/// PSW after a comparison of two bytes.
#[tactic(auto, unfolding(crate::specs::Sums::compare))]
#[inline(always)]
pub fn compared(psw: u8, value: u8, m: u8) -> u8
    ensures { result ≡ compare psw value m }
{
    let difference = ((value as u16 + 256 - m as u16) % 256) as u8;
    with_bit(with_result(difference, psw), CARRY, value >= m)
}
