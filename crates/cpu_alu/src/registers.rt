// New status bytes, and values put into S, D, the data bank and all 16 bits of A.
ghost use Rattle.std.specs.Prelude.{◌≡◌, ◌<◌, IsTrue};
ghost use Rattle.status_bits.specs.StatusBits.{is_weight};
ghost use Rattle.cpu_alu.specs.Registers.{
  clear_flags,
  exchange_modes,
  load_a_wide,
  load_bank,
  load_d,
  pushed_status,
  set_flags,
  set_stack,
  swap_bytes,
  with_flag,
  with_status,
};

use crate::width::with_result;
use cpu_tables::{CARRY, INDEX_8, MEMORY_8, Op, Regs};
use status_bits::{is_set, with_bit};

/// Returns the registers with a new status byte. In emulation mode both widths stay 8 bits, and 8-bit indexes have no
/// high byte.
#[tactic(auto, unfolding(crate::specs::Registers::with_status))]
#[inline(always)]
pub fn status_set(regs: Regs, p: u8) -> Regs
    ensures { result ≡ with_status regs p }
{
    let p = if regs.e {
        with_bit(with_bit(p, MEMORY_8, true), INDEX_8, true)
    } else {
        p
    };
    if is_set(p, INDEX_8) {
        Regs {
            p,
            x: regs.x % 256,
            y: regs.y % 256,
            ..regs
        }
    } else {
        Regs { p, ..regs }
    }
}

/// Returns the status byte as an operation or an interrupt pushes it. In emulation mode bit 5 is set. Bit 4 is then set
/// by software (BRK, COP, PHP) and clear by an interrupt of the hardware.
#[tactic(auto, unfolding(crate::specs::Registers::pushed_status))]
#[inline(always)]
pub fn pushed_status(op: Op, regs: Regs) -> u8
    ensures { result ≡ pushed_status op regs }
{
    let is_software = !matches!(op, Op::Nmi | Op::Irq);
    if regs.e {
        with_bit(with_bit(regs.p, MEMORY_8, true), INDEX_8, is_software)
    } else {
        regs.p
    }
}

/// REP: returns the registers with the flags of a mask cleared.
#[tactic(auto, unfolding(crate::specs::Registers::clear_flags))]
#[inline(always)]
pub fn flags_cleared(regs: Regs, mask: u16) -> Regs
    ensures { result ≡ clear_flags regs mask }
{
    let mask = (mask % 256) as u8;
    status_set(regs, regs.p - (regs.p & mask))
}

/// SEP: returns the registers with the flags of a mask set.
#[tactic(auto, unfolding(crate::specs::Registers::set_flags))]
#[inline(always)]
pub fn flags_set(regs: Regs, mask: u16) -> Regs
    ensures { result ≡ set_flags regs mask }
{
    let mask = (mask % 256) as u8;
    status_set(regs, regs.p | mask)
}

/// Returns the registers with the flag of a weight set or cleared.
#[inline(always)]
pub fn flag_set(regs: Regs, weight: u8, on: bool) -> Regs
    requires { IsTrue (is_weight weight) }
    ensures { result ≡ with_flag regs weight on }
{
    Regs {
        p: with_bit(regs.p, weight, on),
        ..regs
    }
}

/// XCE: returns the registers with the carry and emulation mode exchanged.
#[tactic(auto, unfolding(crate::specs::Registers::exchange_modes))]
#[inline(always)]
pub fn modes_exchanged(regs: Regs) -> Regs
    ensures { result ≡ exchange_modes regs }
{
    let into = is_set(regs.p, CARRY);
    let s = if into { 256 + regs.s % 256 } else { regs.s };
    status_set(Regs { e: into, s, ..regs }, with_bit(regs.p, CARRY, regs.e))
}

/// Returns the registers with a value in S: in emulation mode only its low byte changes.
#[tactic(auto, unfolding(crate::specs::Registers::set_stack))]
#[inline(always)]
pub fn stack_set(regs: Regs, value: u16) -> Regs
    ensures { result ≡ set_stack regs value }
{
    let s = if regs.e {
        regs.s / 256 * 256 + value % 256
    } else {
        value
    };
    Regs { s, ..regs }
}

/// Returns the registers with a value in all 16 bits of A, and N and Z by it.
#[tactic(auto, unfolding(crate::specs::Registers::load_a_wide))]
#[inline(always)]
pub fn a_wide_loaded(regs: Regs, value: u16) -> Regs
    ensures { result ≡ load_a_wide regs value }
{
    Regs {
        a: value,
        p: with_result(65536, value as u32, regs.p),
        ..regs
    }
}

/// Returns the registers with a value in D, and N and Z by it.
#[tactic(auto, unfolding(crate::specs::Registers::load_d))]
#[inline(always)]
pub fn d_loaded(regs: Regs, value: u16) -> Regs
    ensures { result ≡ load_d regs value }
{
    Regs {
        d: value,
        p: with_result(65536, value as u32, regs.p),
        ..regs
    }
}

/// Returns the registers with a value in the data bank, and N and Z by it.
#[tactic(auto, unfolding(crate::specs::Registers::load_bank))]
#[inline(always)]
pub fn bank_loaded(regs: Regs, value: u16) -> Regs
    ensures { result ≡ load_bank regs value }
{
    let bank = value % 256;
    Regs {
        dbr: bank as u8,
        p: with_result(256, bank as u32, regs.p),
        ..regs
    }
}

/// XBA: returns the registers with the bytes of A exchanged, and N and Z by the new low byte.
#[tactic(auto, unfolding(crate::specs::Registers::swap_bytes))]
#[inline(always)]
pub fn bytes_swapped(regs: Regs) -> Regs
    ensures { result ≡ swap_bytes regs }
{
    let low = regs.a / 256;
    Regs {
        a: regs.a % 256 * 256 + low,
        p: with_result(256, low as u32, regs.p),
        ..regs
    }
}
