// One time line for two clocks, in each region.
//
// The console counts master clocks of 236,250,000/11 Hz (Ntsc) or 21,281,370 Hz (Pal), the sound side cycles of
// 1,024,000 Hz. A stamp is a time on the line that both share. A master clock is 5,632 stamps and a sound cycle 118,125
// in Ntsc, and 102,400 and 2,128,137 in Pal. These are the two rates multiplied across, so stamps are exact and compare
// as times do.
//
// A call without a region is for Ntsc. `specs/` has the numbers of a region: `least`, `most`, `window`, the stamps of a
// clock and of a frame. `proofs/Numbers` has what a law needs of them.
#![tactic(auto)]

ghost use Rattle.std.specs.Prelude.{◌≡◌, ◌+◌, ◌*◌, ◌^◌, ◌<◌, ◌≤◌, ◌↔◌, ℕ, IsTrue};
ghost use Rattle.snes_defs.specs.declared.region.Region.TheVariants.{Ntsc};
ghost use Rattle.clock_ratio.specs.Stamp.{stamp_of, most_clocks, end_stamp_of, least_of, most_of, window_of, samples_before_of, sample_stamp};

use snes_defs::{LEAST_RISE, MOST_RISE, Region, Side, WINDOW};

/// Stamps of one master clock, in Ntsc.
pub const CONSOLE_RATE: u64 = 5632;

/// Stamps of one cycle of the SPC700, in Ntsc.
pub const SOUND_RATE: u64 = 118_125;

/// Stamps of one frame, in Ntsc: 262 lines of 1,364 master clocks.
pub const FRAME_STAMPS: u64 = 2_012_696_576;

/// Stamps of one master clock, in Pal.
pub const PAL_CONSOLE_RATE: u64 = 102_400;

/// Stamps of one cycle of the SPC700, in Pal.
pub const PAL_SOUND_RATE: u64 = 2_128_137;

/// Stamps of one frame, in Pal: 312 lines of 1,364 master clocks.
pub const PAL_FRAME_STAMPS: u64 = 43_578_163_200;

/// Returns the stamp at which a side's clock reads `clocks`, in Ntsc.
#[inline(always)]
pub fn stamp(side: Side, clocks: u64) -> u64
    requires { clocks ≤ most_clocks Ntsc side }
    ensures { result ≡ stamp_of Ntsc side clocks }
{
    stamp_in(Region::Ntsc, side, clocks)
}

/// Returns the stamp at which a side's clock reads `clocks`, in a region.
#[inline(always)]
pub fn stamp_in(region: Region, side: Side, clocks: u64) -> u64
    requires { clocks ≤ most_clocks region side }
    ensures { result ≡ stamp_of region side clocks }
{
    match (region, side) {
        (Region::Ntsc, Side::Console) => CONSOLE_RATE * clocks,
        (Region::Ntsc, Side::Sound) => SOUND_RATE * clocks,
        (Region::Pal, Side::Console) => PAL_CONSOLE_RATE * clocks,
        (Region::Pal, Side::Sound) => PAL_SOUND_RATE * clocks,
    }
}

/// Whether the console is the earlier side, if `c` and `s` are the stamps of the console's and the sound side's next
/// steps. Ties go to the console.
#[inline(always)]
pub fn console_first(c: u64, s: u64) -> bool
    ensures { IsTrue result ↔ (c ≤ s) }
{
    c <= s
}

/// Returns the stamp at which a run of that many frames ends, in Ntsc.
pub fn end_stamp(frames: u32) -> u64
    requires { frames ≤ 36000 }
    ensures { result ≡ end_stamp_of Ntsc frames }
{
    end_stamp_in(Region::Ntsc, frames)
}

/// Returns the stamp at which a run of that many frames ends, in a region.
pub fn end_stamp_in(region: Region, frames: u32) -> u64
    requires { frames ≤ 36000 }
    ensures { result ≡ end_stamp_of region frames }
{
    match region {
        Region::Ntsc => FRAME_STAMPS * frames as u64,
        Region::Pal => PAL_FRAME_STAMPS * frames as u64,
    }
}

/// Returns the least number of stamps by which one step of a machine raises its stamp: 6 master clocks.
#[inline(always)]
pub fn least(region: Region) -> u64
    ensures { result ≡ least_of region }
{
    match region {
        Region::Ntsc => LEAST_RISE,
        Region::Pal => 614_400,
    }
}

/// Returns the greatest number of stamps by which one step of a machine raises its stamp: the 40 master clocks of a
/// refresh.
#[inline(always)]
pub fn most(region: Region) -> u64
    ensures { result ≡ most_of region }
{
    match region {
        Region::Ntsc => MOST_RISE,
        Region::Pal => 4_096_000,
    }
}

/// Returns how far one side may run ahead of the other's published clock, in stamps: 16 lines.
#[inline(always)]
pub fn window(region: Region) -> u64
    ensures { result ≡ window_of region }
{
    match region {
        Region::Ntsc => WINDOW,
        Region::Pal => 2_234_777_600,
    }
}

/// Returns how many samples are emitted before the stamp `end`, in Ntsc.
pub fn samples_before(end: u64) -> u64
    requires { end ≤ 2 ^ 63 }
    ensures number { result ≡ samples_before_of Ntsc end }
    ensures counts { (k : ℕ) → (sample_stamp Ntsc k < end) ↔ (k < result) }
{
    samples_before_in(Region::Ntsc, end)
}

/// Returns how many samples are emitted before the stamp `end`, in a region. The step of cycle `32 * k + 31` emits
/// sample `k`.
pub fn samples_before_in(region: Region, end: u64) -> u64
    requires { end ≤ 2 ^ 63 }
    ensures number { result ≡ samples_before_of region end }
    ensures counts { (k : ℕ) → (sample_stamp region k < end) ↔ (k < result) }
{
    match region {
        Region::Ntsc => (end + (SOUND_RATE - 1)) / (32 * SOUND_RATE),
        Region::Pal => (end + (PAL_SOUND_RATE - 1)) / (32 * PAL_SOUND_RATE),
    }
}
