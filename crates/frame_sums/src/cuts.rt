ghost use Rattle.std.specs.Prelude.{◌≡◌, ◌≤◌, vec_len};

use crate::pieces::Pieces;
use sha2::Sha256;

/// The sums of the frames of one side, while its bytes come: those of the frames that are over, and the hasher of the frame
/// under way.
#[derive(Drop)]
pub(crate) struct Cuts {
    pub(crate) of: Pieces,
    pub(crate) rows: Vec<[u8; 32]>,
    /// How many frames are over.
    pub(crate) done: usize,
    /// How many bytes of the frame under way are still to come.
    pub(crate) left: u64,
    pub(crate) part: Sha256,
    ghost few: { of.frames ≤ 36000 },
    ghost size: { vec_len rows ≡ of.frames },
    ghost within: { done ≤ of.frames },
}
