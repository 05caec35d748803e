// Addresses of the program, the stack, the direct page, pointers and data, and the bytes of words.
ghost use Rattle.std.specs.Prelude.{◌≡◌, ◌+◌, ◌*◌, ◌/◌, ◌%◌, ◌<◌, ◌^◌};
ghost use Rattle.cpu_modes.specs.Addresses.{code, direct, direct_always, has_index_cycle, is_wide, join, next_in_bank, pulled, pushed, second, stack};
ghost use Rattle.cpu_modes.specs.Orders.{pointer_next};

use crate::place::{Direction, PointerKind, Reach, Traffic};
use crate::uses::Width;
use cpu_tables::{INDEX_8, MEMORY_8, Regs};
use status_bits::is_set;

/// Returns the 24-bit address of the next byte of the program.
#[inline(always)]
pub fn code_address(r: &Regs) -> u32
    ensures exact { result ≡ code r.now }
    ensures within { result < 2 ^ 24 }
{
    65536 * r.pbr as u32 + r.pc as u32
}

/// Returns the address that the stack pointer points to, in bank 0: in emulation mode always in page 1.
#[inline(always)]
pub fn stack_address(r: &Regs) -> u32
    ensures exact { result ≡ stack r.now }
    ensures within { result < 2 ^ 24 }
{
    if r.e {
        256 + r.s as u32 % 256
    } else {
        r.s as u32
    }
}

/// Returns the stack pointer at the byte that a pull reads.
#[inline(always)]
pub fn pulled_stack(r: &Regs) -> u16
    ensures { result ≡ (pulled r.now).s }
{
    if r.e {
        256 + (r.s % 256 + 1) % 256
    } else {
        r.s.wrapping_add(1)
    }
}

/// Returns the stack pointer after a push.
#[inline(always)]
pub fn pushed_stack(r: &Regs) -> u16
    ensures { result ≡ (pushed r.now).s }
{
    if r.e {
        256 + (r.s % 256 + 255) % 256
    } else {
        r.s.wrapping_sub(1)
    }
}

/// Returns the address of the byte that a pull reads.
#[inline(always)]
pub fn pull_address(r: &Regs) -> u32
    ensures exact { result ≡ stack (pulled r.now) }
    ensures within { result < 2 ^ 24 }
{
    let s = pulled_stack(r);
    if r.e { 256 + s as u32 % 256 } else { s as u32 }
}

/// Returns the address of the high byte of data whose low byte is at `at`.
#[inline(always)]
pub fn second_address(reach: Reach, at: u32) -> u32
    ensures exact { result ≡ second reach at }
    ensures within { result < 2 ^ 24 }
{
    match reach {
        Reach::NextAddress => (at % 16777216 + 1) % 16777216,
        Reach::NextInBankZero => (at % 65536 + 1) % 65536,
    }
}

/// Returns the next address in the same bank.
#[inline(always)]
pub fn next_in_bank(at: u32) -> u32
    requires { at < 2 ^ 24 }
    ensures exact { result ≡ next_in_bank at }
    ensures within { result < 2 ^ 24 }
{
    at / 65536 * 65536 + (at % 65536 + 1) % 65536
}

/// Returns the word of a low byte and a high byte.
#[inline(always)]
pub(crate) fn join(low: u16, high: u8) -> u16
    ensures { result ≡ join low high }
{
    low % 256 + 256 * high as u16
}

/// Returns the low byte of a word.
#[inline(always)]
pub fn low_byte(word: u32) -> u8
    ensures { result ≡ word % 256 }
{
    (word % 256) as u8
}

/// Returns the high byte of a word.
#[inline(always)]
pub fn high_byte(word: u32) -> u8
    ensures { result ≡ word / 256 % 256 }
{
    (word / 256 % 256) as u8
}

/// Whether data of this width has 16 bits.
#[inline(always)]
pub fn is_wide(width: Width, r: &Regs) -> bool
    ensures { result ≡ is_wide width r.now }
{
    match width {
        Width::Memory => !is_set(r.p, MEMORY_8),
        Width::Index => !is_set(r.p, INDEX_8),
        Width::Byte => false,
        Width::Word => true,
    }
}

/// Returns the address in bank 0 at an offset and an index from the direct register.
#[inline(always)]
pub fn direct_address(r: &Regs, offset: u16, index: u16) -> u32
    ensures exact { result ≡ direct r.now offset index }
    ensures within { result < 2 ^ 24 }
{
    if r.e && r.d % 256 == 0 {
        r.d as u32 + (offset as u32 + index as u32) % 256
    } else {
        (r.d as u32 + offset as u32 + index as u32) % 65536
    }
}

/// Returns the address in bank 0 at an offset from the direct register, in either mode.
#[inline(always)]
pub fn direct_always(r: &Regs, offset: u16) -> u32
    ensures exact { result ≡ direct_always r.now offset }
    ensures within { result < 2 ^ 24 }
{
    (r.d as u32 + offset as u32) % 65536
}

/// Returns the address of a pointer's second byte.
#[inline(always)]
pub fn pointer_next(kind: PointerKind, r: &Regs, at: u32) -> u32
    requires { at < 2 ^ 24 }
    ensures exact { result ≡ pointer_next kind r.now at }
    ensures within { result < 2 ^ 24 }
{
    match kind {
        PointerKind::Plain | PointerKind::Y => {
            if r.e && r.d % 256 == 0 {
                at / 256 * 256 + (at % 256 + 1) % 256
            } else {
                (at % 65536 + 1) % 65536
            }
        }
        PointerKind::StackY | PointerKind::Long | PointerKind::LongY | PointerKind::Pushed => {
            (at % 65536 + 1) % 65536
        }
    }
}

/// Whether an indexed address takes an internal cycle of its own.
#[inline(always)]
pub fn has_index_cycle(traffic: Traffic, r: &Regs, at: u32, index: u16) -> bool
    requires { at < 2 ^ 24 }
    ensures { result ≡ has_index_cycle traffic r.now at index }
{
    let is_written = match traffic.direction {
        Direction::Load => false,
        Direction::Store => true,
        Direction::Change => true,
    };
    !is_set(r.p, INDEX_8) || at / 256 != (at + index as u32) / 256 || is_written
}
