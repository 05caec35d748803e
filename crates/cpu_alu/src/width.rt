// Values at 8 or 16 bits, and loads of A, X and Y at their widths.
ghost use Rattle.std.specs.Prelude.{◌≡◌, ◌⊎◌, ◌+◌, ◌*◌, ◌/◌, ◌%◌, ◌<◌};
ghost use Rattle.cpu_tables.specs.Status.{memory_size, index_size};
ghost use Rattle.cpu_alu.specs.Width.{accumulator, bit_of, load_a, load_x, load_y, put_a, top_bit, with_nz};

use cpu_tables::{INDEX_8, MEMORY_8, NEGATIVE, Regs, ZERO};
use status_bits::{is_set, with_bit};

/// Returns how many values A and a memory operand can have: 256 or 65536.
#[inline(always)]
pub fn memory_numbers(regs: Regs) -> u32
    ensures value { result ≡ memory_size regs }
    ensures width { (result ≡ 256) ⊎ (result ≡ 65536) }
{
    if is_set(regs.p, MEMORY_8) { 256 } else { 65536 }
}

/// Returns how many values an index register can have: 256 or 65536.
#[inline(always)]
pub fn index_numbers(regs: Regs) -> u32
    ensures value { result ≡ index_size regs }
    ensures width { (result ≡ 256) ⊎ (result ≡ 65536) }
{
    if is_set(regs.p, INDEX_8) { 256 } else { 65536 }
}

/// Returns a flag as a number, 0 or 1.
#[inline(always)]
pub fn bit_number(on: bool) -> u32
    ensures value { result ≡ bit_of on }
    ensures small { result < 2 }
{
    if on { 1 } else { 0 }
}

/// Returns the top bit of a number at a width.
#[inline(always)]
pub fn top_bit_at(size: u32, value: u32) -> u32
    requires { (size ≡ 256) ⊎ ((size ≡ 65536) ⊎ (size ≡ 16)) }
    ensures { result ≡ top_bit size value }
{
    value / (size / 2) % 2
}

/// Returns the status byte with N and Z by a result.
#[tactic(auto, unfolding(crate::specs::Width::with_nz))]
#[inline(always)]
pub fn with_result(size: u32, value: u32, p: u8) -> u8
    requires { (size ≡ 256) ⊎ (size ≡ 65536) }
    ensures { result ≡ with_nz size value p }
{
    with_bit(
        with_bit(p, ZERO, value == 0),
        NEGATIVE,
        value / (size / 2) % 2 == 1,
    )
}

/// Returns A at its width.
#[inline(always)]
pub fn accumulator_value(regs: Regs) -> u32
    ensures { result ≡ accumulator regs }
{
    regs.a as u32 % memory_numbers(regs)
}

/// Returns A with a new value at its width: at 8 bits the high byte stays.
#[tactic(auto, unfolding(crate::specs::Width::put_a))]
#[inline(always)]
pub fn a_with(regs: Regs, value: u32) -> u16
    ensures { result ≡ put_a regs value }
{
    let size = memory_numbers(regs);
    (regs.a as u32 / size * size + value % size) as u16
}

/// Returns the registers with a value in A at its width, and N and Z by it.
#[tactic(auto, unfolding(crate::specs::Width::load_a))]
#[inline(always)]
pub fn a_loaded(regs: Regs, value: u32) -> Regs
    ensures { result ≡ load_a regs value }
{
    let size = memory_numbers(regs);
    Regs {
        a: a_with(regs, value),
        p: with_result(size, value % size, regs.p),
        ..regs
    }
}

/// Returns the registers with a value in X, and N and Z by it.
#[tactic(auto, unfolding(crate::specs::Width::load_x))]
#[inline(always)]
pub fn x_loaded(regs: Regs, value: u32) -> Regs
    ensures { result ≡ load_x regs value }
{
    let size = index_numbers(regs);
    let index = value % size;
    Regs {
        x: index as u16,
        p: with_result(size, index, regs.p),
        ..regs
    }
}

/// Returns the registers with a value in Y, and N and Z by it.
#[tactic(auto, unfolding(crate::specs::Width::load_y))]
#[inline(always)]
pub fn y_loaded(regs: Regs, value: u32) -> Regs
    ensures { result ≡ load_y regs value }
{
    let size = index_numbers(regs);
    let index = value % size;
    Regs {
        y: index as u16,
        p: with_result(size, index, regs.p),
        ..regs
    }
}
