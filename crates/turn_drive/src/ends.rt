ghost use Rattle.std.specs.Prelude.{◌≡◌, ◌^◌, ◌<◌, ◌≤◌, min};

use clock_ratio::stamp_in;
use snes_defs::{LINE_CLOCKS, Region, Side};

/// The number of lines after which the console's room is full: it holds 64 rows, and a leg needs room for two.
const ROWS: u64 = 62;

/// The line of the third near end of a frame. The fourth is at the frame's end.
const THIRD: u64 = 3 * ROWS;

/// The near ends of a run, one after another: the stamps of lines 62, 124 and 186 of each frame and of its end. They
/// are counted from where the run begins, and the last one is the end of the run.
#[derive(Drop)]
pub(crate) struct Ends {
    region: Region,
    /// The line of the near end in its frame, 0 at the frame's end.
    line: u64,
    pub(crate) near: u64,
    end: u64,
    ghost line_in_frame: { line ≤ 186 },
    ghost within: { near ≤ end },
}

/// The number of lines of a frame.
fn frame_lines(region: Region) -> u64
    ensures least { 186 < result }
    ensures most { result ≤ 312 }
{
    match region {
        Region::Ntsc => 262,
        Region::Pal => 312,
    }
}

impl Ends {
    /// The first near end of a run from the stamp `begin` to `end`.
    pub(crate) fn new(region: Region, begin: u64, end: u64) -> Ends
        ensures end { result.end ≡ end }
        ensures within { result.near ≤ end }
    {
        let mut ends = Ends {
            region,
            line: 0,
            near: begin.min(end),
            end,
        };
        ends.go_on();
        ends
    }

    /// Moves on to the next near end, and stays at the end of the run.
    pub(crate) fn go_on(&mut self)
        ensures end { self.new.end ≡ self.old.end }
        ensures within { self.new.near ≤ self.new.end }
        ensures rises { self.old.near < self.old.end → self.old.near < self.new.near }
        ensures stays { self.old.near ≤ self.new.near }
    {
        let line = if self.line < THIRD {
            self.line + ROWS
        } else {
            frame_lines(self.region)
        };
        let rise = stamp_in(
            self.region,
            Side::Console,
            LINE_CLOCKS as u64 * (line - self.line),
        );
        self.line = if line <= THIRD { line } else { 0 };
        self.near = if self.end - self.near <= rise {
            self.end
        } else {
            self.near + rise
        };
    }
}
