ghost use Rattle.std.specs.Prelude.{◌≡◌, ◌+◌, ◌-◌, ◌*◌, ◌/◌, ◌<◌, ◌≤◌, ◌^◌};
ghost use Rattle.film_avi.specs.Layout.{samples_upto_of, chunks_of};

use clock_ratio::{end_stamp_in, samples_before_in};
use snes_defs::Region;

/// The most frames of a part.
pub const PART_FRAMES: u32 = 1800;

/// The number of samples in the first `frames` frames of a region.
pub fn samples_upto(region: Region, frames: u32) -> u64
    requires { frames ≤ 36000 }
    ensures number { result ≡ samples_upto_of region frames }
    ensures bound { result < 2 ^ 26 }
{
    samples_before_in(region, end_stamp_in(region, frames))
}

/// The bytes of the chunks of the frames from `from` up to, but without, `upto`.
pub fn chunk_bytes(region: Region, from: u32, upto: u32) -> u64
    requires order { from ≤ upto }
    requires limit { upto ≤ 36000 }
    ensures number { result ≡ chunks_of region from upto }
    ensures bound { result < 2 ^ 36 }
{
    let samples = samples_upto(region, upto).saturating_sub(samples_upto(region, from));
    489_488 * (upto - from) as u64 + 4 * samples
}

/// The layout of an AVI file: its film's frames, which determine where its parts are.
#[derive(Clone, Copy)]
pub struct Layout {
    /// The region of the film.
    pub region: Region,
    /// The number of frames of the film.
    pub frames: u32,
    ghost limit: { frames ≤ 36000 },
}

impl Layout {
    ghost use Rattle.film_avi.specs.Layout.{part_from, part_upto, index_of, movi_of};

    /// The layout of a film of `frames` frames.
    pub fn new(region: Region, frames: u32) -> Layout
        requires { frames ≤ 36000 }
        ensures region { result.region ≡ region }
        ensures frames { result.frames ≡ frames }
    {
        Layout { region, frames }
    }

    /// The number of parts, at least one.
    pub fn parts(&self) -> u32
        ensures { result ≤ 21 }
    {
        if self.frames == 0 {
            1
        } else {
            (self.frames + (PART_FRAMES - 1)) / PART_FRAMES
        }
    }

    /// The first frame of a part.
    pub fn from(&self, part: u32) -> u32
        requires { part < 32 }
        ensures { result ≡ part_from self.now.frames part }
    {
        (PART_FRAMES * part).min(self.frames)
    }

    /// The frame after the last of a part.
    pub fn upto(&self, part: u32) -> u32
        requires { part < 32 }
        ensures { result ≡ part_upto self.now.frames part }
    {
        (PART_FRAMES * part + PART_FRAMES).min(self.frames)
    }

    /// The bytes of a part's list `movi`, after its length.
    pub(crate) fn movi_bytes(&self, part: u32) -> u64
        requires { part < 32 }
        ensures number { result ≡ movi_of self.now.region (part_from self.now.frames part) (part_upto self.now.frames part) }
        ensures bound { result < 2 ^ 37 }
    {
        let (from, upto) = (self.from(part), self.upto(part));
        4 + chunk_bytes(self.region, from, upto) + 2 * (32 + 8 * (upto - from) as u64)
    }
}
