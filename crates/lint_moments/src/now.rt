//! The time of a step, and what the picture unit does then.

ghost use Rattle.std.specs.Prelude.{◌≡◌};
ghost use Rattle.lint_moments.specs.Times.{clocks_before, frame_at, line_at, clock_at};

use crate::ports::Ports;
use clock_ratio::{CONSOLE_RATE, PAL_CONSOLE_RATE};
use lint_rules::Moment;
use snes_defs::Region;

/// The master clocks of a line, and the lines of a frame.
const LINE: u64 = 1364;

const LINES: u64 = 262;

const PAL_LINES: u64 = 312;

/// The time of a step, and what the picture unit does then.
#[derive(Clone, Copy)]
pub struct Now {
    /// The region of the run.
    pub region: Region,
    /// The stamp at which the step begins.
    pub stamp: u64,
    /// Whether overscan is on.
    pub overscan: bool,
    /// Whether forced blank is on.
    pub forced: bool,
    /// Whether the picture is of mode 7.
    pub mode7: bool,
    /// The ports to the picture unit's memories.
    pub ports: Ports,
}

impl Now {
    /// Returns the master clocks since the start of the run.
    pub fn clocks(&self) -> u64
        ensures { result ≡ clocks_before self.now.region self.now.stamp }
    {
        match self.region {
            Region::Ntsc => self.stamp / CONSOLE_RATE,
            Region::Pal => self.stamp / PAL_CONSOLE_RATE,
        }
    }

    /// Returns the moment.
    pub fn moment(&self) -> Moment
        ensures frame { result.frame ≡ frame_at self.now.region self.now.stamp }
        ensures line { result.line ≡ line_at self.now.region self.now.stamp }
        ensures clock { result.clock ≡ clock_at self.now.region self.now.stamp }
        ensures blank { (result.overscan ≡ self.now.overscan) × (result.forced ≡ self.now.forced) }
    {
        let clocks = self.clocks();
        let lines = clocks / LINE;
        match self.region {
            Region::Ntsc => Moment {
                frame: lines / LINES,
                line: lines % LINES,
                clock: clocks % LINE,
                overscan: self.overscan,
                forced: self.forced,
            },
            Region::Pal => Moment {
                frame: lines / PAL_LINES,
                line: lines % PAL_LINES,
                clock: clocks % LINE,
                overscan: self.overscan,
                forced: self.forced,
            },
        }
    }
}
