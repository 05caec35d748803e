ghost use Rattle.std.specs.Prelude.{◌≡◌, ◌≤◌, ◌<◌, ◌+◌, ◌-◌};
ghost use Rattle.frame_sums.specs.Pieces.{start_of};

use clock_ratio::{end_stamp_in, samples_before_in};
use snes_defs::{Region, Side};

/// The bytes of a picture: 512 by 239 pixels of two bytes.
const PICTURE: u64 = 244_736;

/// Which bytes of a side are those of each frame of a run.
#[derive(Clone, Copy)]
pub struct Pieces {
    /// The region of the run.
    pub region: Region,
    /// The console, which emits pictures, or the sound side, which emits samples.
    pub side: Side,
    /// How many frames the run has, at most 36,000.
    pub frames: u32,
}

impl Pieces {
    /// The first byte of a frame, from 0, among all that the side emits.
    #[tactic(auto, unfolding(crate::specs::Pieces::start_of), using(crate::proofs::PieceLemmas::starts))]
    pub(crate) fn start(&self, frame: u32) -> u64
        requires { frame ≤ 36000 }
        ensures start { result ≡ start_of self.now.region self.now.side frame }
    {
        match self.side {
            Side::Console => PICTURE * u64::from(frame),
            Side::Sound => {
                let end = end_stamp_in(self.region, frame);
                4 * samples_before_in(self.region, end)
            }
        }
    }

    /// How many bytes a frame has.
    #[tactic(auto, using(crate::proofs::PieceLemmas::starts_rise))]
    pub(crate) fn size(&self, frame: u32) -> u64
        requires { frame < 36000 }
        ensures size { result ≡ start_of self.now.region self.now.side (frame + 1) - start_of self.now.region self.now.side frame }
    {
        self.start(frame + 1) - self.start(frame)
    }
}
