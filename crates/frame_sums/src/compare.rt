ghost use Rattle.std.specs.Prelude.{◌≡◌};
ghost use Rattle.frame_sums.specs.Compare.{IsFound};
ghost use Rattle.frame_sums.specs.Digests.{digest_pair, digest_all};

use crate::digests::Digests;
use crate::file::SumsFile;

/// The first line in which a file of sums and a run differ.
#[derive(Clone, Copy)]
pub enum Difference {
    /// The picture of a frame, from 0.
    Picture(u32),
    /// The samples of a frame whose picture is the same.
    Sound(u32),
    /// The number of frames: those that both have are the same.
    Frames,
    /// All pictures: the sum of the whole video.
    AllPictures,
    /// All samples: the sum of the whole audio.
    AllSound,
}

/// The first difference of a file of sums and a run, line by line, a picture before the samples. None if there is none.
pub fn first_difference(file: &SumsFile, video: &Digests, audio: &Digests) -> Option<Difference>
    requires same { video.now.of.frames ≡ audio.now.of.frames }
    ensures { IsFound file.now video.now.of.frames (digest_pair video.now audio.now) (digest_all video.now audio.now) result }
{
    for frame in 0..video.of.frames {
        let at = frame as usize;
        if at >= file.frames() {
            return Some(Difference::Frames);
        }
        let pair = file.pair(at);
        if pair.picture != video.rows[at] {
            return Some(Difference::Picture(frame));
        }
        if pair.sound != audio.rows[at] {
            return Some(Difference::Sound(frame));
        }
    }
    if file.frames() != video.of.frames as usize {
        return Some(Difference::Frames);
    }
    if file.all().picture != video.all {
        return Some(Difference::AllPictures);
    }
    if file.all().sound != audio.all {
        return Some(Difference::AllSound);
    }
    None
}
