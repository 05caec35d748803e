ghost use Rattle.std.specs.Prelude.{◌≡◌, vec_len};

use crate::pieces::Pieces;

/// The sums of what one side emitted: of each frame, and of all its bytes.
#[derive(Drop)]
pub struct Digests {
    pub(crate) of: Pieces,
    pub(crate) rows: Vec<[u8; 32]>,
    pub(crate) all: [u8; 32],
    ghost size: { vec_len rows ≡ of.frames },
}
