//! The position of the beam.

ghost use Rattle.std.specs.Prelude.{◌≡◌, ◌/◌};
ghost use Rattle.snes_defs.specs.declared.ports.Side.TheVariants.{Console};
ghost use Rattle.clock_ratio.specs.Stamp.{rate_of};
ghost use Rattle.snes_trace.specs.Position.{clocks_before, frame_at, line_at, line_clock_at};

use clock_ratio::{CONSOLE_RATE, PAL_CONSOLE_RATE};
use snes_defs::{LINE_CLOCKS, Region};

/// The lines of a frame.
const LINES: u64 = 262;

const PAL_LINES: u64 = 312;

/// The position of the beam: frame, line and clock.
#[derive(Clone, Copy)]
pub struct Position {
    /// The frame, from 0.
    pub frame: u64,
    /// The scanline, 0 to 261; to 311 in PAL.
    pub line: u64,
    /// The line clock, 0 to 1,363.
    pub clock: u64,
}

/// Returns the number of master clocks before a stamp.
#[inline(always)]
fn clocks(region: Region, stamp: u64) -> u64
    ensures { result ≡ clocks_before region stamp }
{
    match region {
        Region::Ntsc => stamp / CONSOLE_RATE,
        Region::Pal => stamp / PAL_CONSOLE_RATE,
    }
}

/// Returns the position of the beam at a stamp.
pub fn position_at(region: Region, stamp: u64) -> Position
    ensures frame { result.frame ≡ frame_at region stamp }
    ensures line { result.line ≡ line_at region stamp }
    ensures clock { result.clock ≡ line_clock_at region stamp }
{
    let passed = clocks(region, stamp);
    let lines = passed / LINE_CLOCKS as u64;
    match region {
        Region::Ntsc => Position {
            frame: lines / LINES,
            line: lines % LINES,
            clock: passed % LINE_CLOCKS as u64,
        },
        Region::Pal => Position {
            frame: lines / PAL_LINES,
            line: lines % PAL_LINES,
            clock: passed % LINE_CLOCKS as u64,
        },
    }
}
