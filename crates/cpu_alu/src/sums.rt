// Sums, differences and comparisons, in binary and decimal.
ghost use Rattle.std.specs.Prelude.{◌≡◌, ◌⊎◌, ◌+◌, ◌*◌, ◌/◌, ◌%◌, ◌<◌, ◌≤◌};
ghost use Rattle.cpu_tables.specs.Status.{memory_size};
ghost use Rattle.cpu_alu.specs.Sums.{
  add,
  binary_sum,
  compare,
  corrected,
  decimal_sum,
  digits,
  overflow,
  subtract,
  sum_of,
  take_sum,
  test_bits,
};

use crate::width::{
    a_loaded, accumulator_value, bit_number, memory_numbers, top_bit_at, with_result,
};
use cpu_tables::{CARRY, DECIMAL, NEGATIVE, OVERFLOW, Regs, ZERO};
use status_bits::{is_set, with_bit};

/// A sum at a width, its carry, and whether the signed sum did not fit.
#[derive(Clone, Copy)]
pub struct Sum {
    /// The sum, at the width.
    pub value: u16,
    /// Whether there was a carry.
    pub carry: bool,
    /// Whether the signed sum did not fit.
    pub overflow: bool,
}

/// Decimal digits, with a carry out of the top one.
#[derive(Clone, Copy)]
pub struct Digits {
    /// The digits, four bits each.
    pub value: u16,
    /// Whether there was a carry.
    pub carry: bool,
}

/// Whether digits are added or subtracted.
#[derive(Clone, Copy)]
pub enum Direction {
    /// Digits are added.
    Addition,
    /// The complement of a digit is added.
    Subtraction,
}

/// Whether the signed sum of two numbers does not fit their width.
#[inline(always)]
fn has_overflow(size: u32, a: u32, m: u32, sum: u32) -> bool
    requires { (size ≡ 256) ⊎ ((size ≡ 65536) ⊎ (size ≡ 16)) }
    ensures { result ≡ overflow size a m sum }
{
    let sign = top_bit_at(size, sum);
    sign != top_bit_at(size, a) && sign != top_bit_at(size, m)
}

/// The sum of two numbers of a width and a carry, in binary.
#[tactic(auto, unfolding(crate::specs::Sums::binary_sum))]
#[inline(always)]
fn add_binary(size: u32, a: u32, m: u32, carry: u32) -> Sum
    requires width { (size ≡ 256) ⊎ (size ≡ 65536) }
    requires fits { a + m + carry < 2 * size }
    ensures { result ≡ binary_sum size a m carry }
{
    let sum = a + m + carry;
    Sum {
        value: (sum % size) as u16,
        carry: sum >= size,
        overflow: has_overflow(size, a, m, sum),
    }
}

/// A decimal digit and its carry, from the sum of two digits and a carry.
#[tactic(auto, unfolding(crate::specs::Sums::corrected))]
#[inline(always)]
fn corrected_digit(way: Direction, sum: u32) -> Digits
    requires { sum < 32 }
    ensures digit { result ≡ corrected way sum }
    ensures small { result.value < 16 }
{
    match way {
        Direction::Addition => {
            let corrected = if sum > 9 { sum + 6 } else { sum };
            Digits {
                value: (corrected % 16) as u16,
                carry: corrected > 15,
            }
        }
        Direction::Subtraction => {
            // 10 more is 6 less, modulo 16.
            let corrected = if sum > 15 { sum } else { sum + 10 };
            Digits {
                value: (corrected % 16) as u16,
                carry: sum > 15,
            }
        }
    }
}

/// The sum of the lowest digits of two numbers.
#[inline(always)]
fn one_digit(way: Direction, a: u32, m: u32, carry: bool) -> Digits
    ensures digit { result ≡ digits way 1 a m carry }
    ensures small { result.value < 16 }
{
    corrected_digit(way, a % 16 + m % 16 + bit_number(carry))
}

/// The sum of the three lowest digits of two numbers.
#[inline(always)]
fn three_digits(way: Direction, a: u32, m: u32, carry: bool) -> Digits
    ensures digit { result ≡ digits way 3 a m carry }
    ensures small { result.value < 4096 }
{
    let first = one_digit(way, a, m, carry);
    let second = one_digit(way, a / 16, m / 16, first.carry);
    let third = one_digit(way, a / 16 / 16, m / 16 / 16, second.carry);
    Digits {
        value: first.value + 16 * (second.value + 16 * third.value),
        carry: third.carry,
    }
}

/// The sum of two numbers of two digits.
#[tactic(auto, unfolding(crate::specs::Sums::decimal_sum))]
#[inline(always)]
fn add_decimal_byte(way: Direction, a: u32, m: u32, carry: bool) -> Sum
    ensures { result ≡ decimal_sum way 1 a m carry }
{
    let low = one_digit(way, a, m, carry);
    let top_a = a / 16 % 16;
    let top_m = m / 16 % 16;
    let sum = top_a + top_m + bit_number(low.carry);
    let top = corrected_digit(way, sum);
    Sum {
        value: low.value + 16 * top.value,
        carry: top.carry,
        overflow: has_overflow(16, top_a, top_m, sum),
    }
}

/// The sum of two numbers of four digits.
#[tactic(auto, unfolding(crate::specs::Sums::decimal_sum))]
#[inline(always)]
fn add_decimal_word(way: Direction, a: u32, m: u32, carry: bool) -> Sum
    ensures { result ≡ decimal_sum way 3 a m carry }
{
    let low = three_digits(way, a, m, carry);
    let top_a = a / 4096 % 16;
    let top_m = m / 4096 % 16;
    let sum = top_a + top_m + bit_number(low.carry);
    let top = corrected_digit(way, sum);
    Sum {
        value: low.value + 4096 * top.value,
        carry: top.carry,
        overflow: has_overflow(16, top_a, top_m, sum),
    }
}

/// The sum of A and a number of its width, in the way that the decimal flag gives.
#[tactic(auto, unfolding(crate::specs::Sums::sum_of))]
#[inline(always)]
fn sum_with_a(way: Direction, regs: Regs, m: u32) -> Sum
    requires { m < memory_size regs }
    ensures { result ≡ sum_of way regs m }
{
    let size = memory_numbers(regs);
    let a = accumulator_value(regs);
    let carry = is_set(regs.p, CARRY);
    if is_set(regs.p, DECIMAL) {
        if size == 256 {
            add_decimal_byte(way, a, m, carry)
        } else {
            add_decimal_word(way, a, m, carry)
        }
    } else {
        add_binary(size, a, m, bit_number(carry))
    }
}

/// A sum is put into A, and sets N, Z, C and V.
#[tactic(auto, unfolding(crate::specs::Sums::take_sum))]
#[inline(always)]
fn with_sum(regs: Regs, sum: Sum) -> Regs
    ensures { result ≡ take_sum regs sum }
{
    let loaded = a_loaded(regs, sum.value as u32);
    let p = with_bit(with_bit(loaded.p, CARRY, sum.carry), OVERFLOW, sum.overflow);
    Regs { p, ..loaded }
}

/// ADC: adds the operand and the carry to A. Out of line, so that no other operation pays for the registers that the
/// decimal digits need.
#[tactic(auto, unfolding(crate::specs::Sums::add))]
#[inline(never)]
pub fn add(regs: &mut Regs, word: u16)
    ensures { regs.new ≡ add regs.old word }
{
    let m = word as u32 % memory_numbers(*regs);
    *regs = with_sum(*regs, sum_with_a(Direction::Addition, *regs, m));
}

/// SBC: adds the complement of the operand and the carry to A.
#[tactic(auto, unfolding(crate::specs::Sums::subtract))]
#[inline(never)]
pub fn subtract(regs: &mut Regs, word: u16)
    ensures { regs.new ≡ subtract regs.old word }
{
    let size = memory_numbers(*regs);
    let m = size - 1 - word as u32 % size;
    *regs = with_sum(*regs, sum_with_a(Direction::Subtraction, *regs, m));
}

/// CMP, CPX and CPY: returns the registers after a register's value is compared with the operand.
#[tactic(auto, unfolding(crate::specs::Sums::compare))]
#[inline(always)]
pub fn compared(size: u32, value: u16, regs: Regs, word: u16) -> Regs
    requires { (size ≡ 256) ⊎ (size ≡ 65536) }
    ensures { result ≡ compare size value regs word }
{
    let m = word as u32 % size;
    let value = value as u32 % size;
    let difference = (value + size - m) % size;
    Regs {
        p: with_bit(with_result(size, difference, regs.p), CARRY, value >= m),
        ..regs
    }
}

/// BIT: returns the registers after the operand's bits are tested against A. Unless the operand is immediate, N and V
/// are its top two bits.
#[tactic(auto, unfolding(crate::specs::Sums::test_bits))]
#[inline(always)]
pub fn bits_tested(is_immediate: bool, regs: Regs, word: u16) -> Regs
    ensures { result ≡ test_bits is_immediate regs word }
{
    let size = memory_numbers(regs);
    let m = word as u32 % size;
    let zero = with_bit(regs.p, ZERO, accumulator_value(regs) & m == 0);
    let p = if is_immediate {
        zero
    } else {
        let negative = with_bit(zero, NEGATIVE, m / (size / 2) % 2 == 1);
        with_bit(negative, OVERFLOW, m / (size / 4) % 2 == 1)
    };
    Regs { p, ..regs }
}
