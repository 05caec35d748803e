ghost use Rattle.std.specs.Prelude.{◌≡◌};
ghost use Rattle.spc_alu.specs.Arithmetic.{
  adjusted_down,
  adjusted_high,
  decimal_adjust,
  decimal_adjust_down,
  divide,
  exchange_digits,
  has_high_borrow,
  has_high_carry,
  is_divided,
  multiply,
  overrun,
  quotient,
  remainder,
};

use crate::status::{a_loaded, flag_set, with_result};
use crate::words::{with_ya, ya_of};
use spc_tables::{CARRY, HALF_CARRY, OVERFLOW, SpcRegs};
use status_bits::{is_set, with_bit};

/// MUL: YA is Y times A.
#[tactic(auto, unfolding(crate::specs::Arithmetic::multiply))]
#[inline(always)]
pub fn multiplied(regs: SpcRegs) -> SpcRegs
    ensures { result ≡ multiply regs }
{
    let product = regs.y as u16 * regs.a as u16;
    let psw = with_result((product / 256) as u8, regs.psw);
    SpcRegs {
        psw,
        ..with_ya(regs, product)
    }
}

/// Whether the quotient of DIV is below 512.
#[inline(always)]
fn has_quotient(regs: SpcRegs) -> bool
    ensures { result ≡ is_divided regs }
{
    (regs.y as u16) < 2 * regs.x as u16
}

/// The quotient of DIV, or what the divider leaves instead.
#[inline(always)]
fn quotient_of(regs: SpcRegs) -> u8
    ensures { result ≡ quotient regs }
{
    let value = ya_of(regs) as u32;
    let divisor = regs.x as u32;
    if has_quotient(regs) {
        (value / divisor % 256) as u8
    } else {
        let over = value - 512 * divisor;
        ((65535 + 256 - over / (256 - divisor)) % 256) as u8
    }
}

/// The remainder of DIV, or what the divider leaves instead.
#[inline(always)]
fn remainder_of(regs: SpcRegs) -> u8
    ensures { result ≡ remainder regs }
{
    let value = ya_of(regs) as u32;
    let divisor = regs.x as u32;
    if has_quotient(regs) {
        (value % divisor) as u8
    } else {
        let over = value - 512 * divisor;
        ((divisor + over % (256 - divisor)) % 256) as u8
    }
}

/// DIV: A is the quotient of YA and X, Y the remainder.
#[tactic(auto, unfolding(crate::specs::Arithmetic::divide))]
#[inline(always)]
pub fn divided(regs: SpcRegs) -> SpcRegs
    ensures { result ≡ divide regs }
{
    let a = quotient_of(regs);
    let with_half = with_bit(regs.psw, HALF_CARRY, regs.y % 16 >= regs.x % 16);
    let with_overflow = with_bit(with_half, OVERFLOW, regs.y >= regs.x);
    SpcRegs {
        a,
        y: remainder_of(regs),
        psw: with_result(a, with_overflow),
        ..regs
    }
}

/// Whether DAA corrects the high digit.
#[inline(always)]
fn carries_high(regs: SpcRegs) -> bool
    ensures { result ≡ has_high_carry regs }
{
    is_set(regs.psw, CARRY) || regs.a > 0x99
}

/// A with its high digit corrected by DAA.
#[inline(always)]
fn high_adjusted(regs: SpcRegs) -> u8
    ensures { result ≡ adjusted_high regs }
{
    if carries_high(regs) {
        ((regs.a as u16 + 0x60) % 256) as u8
    } else {
        regs.a
    }
}

/// DAA: A is corrected to decimal digits after an addition.
#[tactic(auto, unfolding(crate::specs::Arithmetic::decimal_adjust))]
#[inline(always)]
pub fn adjusted(regs: SpcRegs) -> SpcRegs
    ensures { result ≡ decimal_adjust regs }
{
    let high = high_adjusted(regs);
    let a = if is_set(regs.psw, HALF_CARRY) || high % 16 > 9 {
        ((high as u16 + 6) % 256) as u8
    } else {
        high
    };
    a_loaded(flag_set(regs, CARRY, carries_high(regs)), a)
}

/// Whether DAS corrects the high digit.
#[inline(always)]
fn borrows_high(regs: SpcRegs) -> bool
    ensures { result ≡ has_high_borrow regs }
{
    !is_set(regs.psw, CARRY) || regs.a > 0x99
}

/// A with its high digit corrected by DAS.
#[inline(always)]
fn high_adjusted_down(regs: SpcRegs) -> u8
    ensures { result ≡ adjusted_down regs }
{
    if borrows_high(regs) {
        ((regs.a as u16 + 256 - 0x60) % 256) as u8
    } else {
        regs.a
    }
}

/// DAS: A is corrected to decimal digits after a subtraction.
#[tactic(auto, unfolding(crate::specs::Arithmetic::decimal_adjust_down))]
#[inline(always)]
pub fn adjusted_after_subtraction(regs: SpcRegs) -> SpcRegs
    ensures { result ≡ decimal_adjust_down regs }
{
    let high = high_adjusted_down(regs);
    let a = if !is_set(regs.psw, HALF_CARRY) || high % 16 > 9 {
        ((high as u16 + 256 - 6) % 256) as u8
    } else {
        high
    };
    a_loaded(flag_set(regs, CARRY, !borrows_high(regs)), a)
}

/// XCN: the two digits of A are exchanged.
#[tactic(auto, unfolding(crate::specs::Arithmetic::exchange_digits))]
#[inline(always)]
pub fn digits_exchanged(regs: SpcRegs) -> SpcRegs
    ensures { result ≡ exchange_digits regs }
{
    a_loaded(regs, regs.a % 16 * 16 + regs.a / 16)
}
