ghost use Rattle.std.specs.Prelude.{◌≡◌, ◌≤◌, vec_len};

use crate::frame_bytes::FrameBytes;
use snapshot::Rewind;
use snes_defs::Region;

/// A console between two frames, and its save states.
#[derive(Drop)]
pub struct Frames {
    pub(crate) rewind: Rewind,
    pub(crate) buffer: Vec<u8>,
    pub(crate) bytes: FrameBytes,
    /// How many frames a path may last.
    pub(crate) most: u32,
    /// How many slots there are.
    pub(crate) slots: u8,
    pub(crate) region: Region,
    ghost drains: { 1024 ≤ vec_len buffer },
    ghost picture_fits: { vec_len bytes.video.bytes ≡ 244736 },
    ghost samples_fit: { vec_len bytes.sound.bytes ≡ 2560 },
}
