//! The bytes that the readable registers give.
ghost use Rattle.std.specs.Prelude.{◌≡◌, ◌<◌, ◌*◌, ◌%◌};
ghost use Rattle.ppu_regs.specs.Reads.{product_of, counters_latched, count_byte, status_one, status_two};

use crate::registers::{Counters, Over, Rotation};
use snes_defs::Spot;

impl Rotation {
    /// Returns the product of 2134-2136 MPYL, MPYM, MPYH: a 24-bit number in two's complement.
    #[inline(always)]
    #[tactic(auto, unfolding(crate::specs::Reads::product_of))]
    pub(crate) fn product(&self) -> u32
        ensures product { result ≡ product_of self.now }
        ensures bits { result < 0x1000000 }
    {
        let a = self.a as u64;
        let b = (self.b / 256) as u64;
        let a = if a < 0x8000 { a } else { a + 0xff0000 };
        let b = if b < 0x80 { b } else { b + 0xffff00 };
        times(a, b)
    }
}

/// The product of two numbers of 24 bits, modulo 2^24.
#[inline(always)]
fn times(a: u64, b: u64) -> u32
    requires a { a < 0x1000000 }
    requires b { b < 0x1000000 }
    ensures { result ≡ a * b % 0x1000000 }
{
    (a.wrapping_mul(b) % 0x1000000) as u32
}

impl Counters {
    /// Keeps the place of the beam, as a read of 2137 SLHV does.
    #[inline(always)]
    #[tactic(auto, unfolding(crate::specs::Reads::counters_latched))]
    pub(crate) fn latch(&mut self, spot: Spot)
        ensures { self.new ≡ counters_latched self.old spot }
    {
        self.h = spot.h / 4;
        self.v = spot.v;
        self.latched = true;
    }

    /// Returns the byte that 213F STAT78 gives.
    #[inline(always)]
    #[tactic(auto, unfolding(crate::specs::Reads::status_two))]
    pub(crate) fn status(&self) -> u8
        ensures { result ≡ status_two self.now }
    {
        64 * self.latched as u8 + 1
    }
}

/// Returns the low byte of a count, or its bit 8 if `high`, as 213C OPHCT and 213D OPVCT give it.
#[inline(always)]
pub fn part_of_count(count: u16, high: bool) -> u8
    ensures { result ≡ count_byte count high }
{
    if high {
        (count / 256 % 2) as u8
    } else {
        (count % 256) as u8
    }
}

impl Over {
    /// Returns the byte that 213E STAT77 gives.
    #[inline(always)]
    #[tactic(auto, unfolding(crate::specs::Reads::status_one))]
    pub(crate) fn status(&self) -> u8
        ensures { result ≡ status_one self.now }
    {
        128 * self.time as u8 + 64 * self.range as u8 + 1
    }
}
