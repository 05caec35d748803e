ghost use Rattle.std.specs.Prelude.{◌≡◌, ◌+◌, ◌%◌, ◌<◌};
ghost use Rattle.spc_modes.specs.Addresses.{
  direct,
  indexed,
  join,
  next_in_page,
  next_place,
  pulled,
  pushed,
  stack,
};

use spc_tables::{DIRECT_PAGE, SpcRegs};
use status_bits::is_set;

/// A word of two bytes.
#[inline(always)]
pub fn join_bytes(low: u8, high: u8) -> u16
    ensures { result ≡ join low high }
{
    low as u16 + 256 * high as u16
}

/// The address at an offset in the direct page; the offset wraps in the page.
#[inline(always)]
pub fn direct_place(regs: &SpcRegs, offset: u16) -> u16
    ensures { result ≡ direct regs.now offset }
{
    let page: u16 = if is_set(regs.psw, DIRECT_PAGE) {
        256
    } else {
        0
    };
    page + offset % 256
}

/// The next address in the same page, which wraps at the page's end.
#[inline(always)]
pub fn place_after_in_page(at: u16) -> u16
    ensures { result ≡ next_in_page at }
{
    at / 256 * 256 + ((at as u32 + 1) % 256) as u16
}

/// The next address in memory.
#[inline(always)]
pub fn place_after(at: u16) -> u16
    ensures { result ≡ next_place at }
{
    ((at as u32 + 1) % 65536) as u16
}

/// An address with an index added.
#[inline(always)]
pub fn indexed_place(at: u16, index: u8) -> u16
    ensures { result ≡ indexed at index }
{
    ((at as u32 + index as u32) % 65536) as u16
}

/// The address that a push writes.
#[inline(always)]
pub fn stack_place(regs: &SpcRegs) -> u16
    ensures { result ≡ stack regs.now }
{
    256 + regs.sp as u16
}

/// The address that a pull reads.
#[inline(always)]
pub fn pull_place(regs: &SpcRegs) -> u16
    ensures { result ≡ stack (pulled regs.now) }
{
    256 + (regs.sp as u16 + 1) % 256
}

/// The stack pointer after a push.
#[inline(always)]
pub fn pushed_pointer(pointer: u8) -> u8
    ensures { result ≡ (pointer + 255) % 256 }
{
    ((pointer as u16 + 255) % 256) as u8
}

/// One more, modulo 256: the stack pointer after a pull, and X after `(X)+`.
#[inline(always)]
pub fn one_more(value: u8) -> u8
    ensures { result ≡ (value + 1) % 256 }
{
    ((value as u16 + 1) % 256) as u8
}
