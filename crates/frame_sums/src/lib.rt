// The sums of a run: SHA-256 of the picture and of the samples of each frame, and of all video and all audio.
//
// Stands on the stamps, on the trait of what takes a run's bytes, on the shelf of files, and on the kit's SHA-256, whose
// definition is the meaning of a sum. `FrameSums` is a sink that keeps no byte: it takes those of either side in any cuts.
// `put_sums` writes the text (`specs/Text.antt`) line by line. No memory is taken but by `FrameSums::new`.
#![tactic(auto)]

mod compare;
mod cuts;
mod cutting;
mod digests;
mod file;
mod line;
mod pieces;
mod playing;
mod put;
mod reading;
mod sums;

pub use compare::{Difference, first_difference};
pub use digests::Digests;
pub use file::{SumPair, SumsEnd, SumsFile, read_sums};
pub use pieces::Pieces;
pub use playing::play_summed;
pub use put::put_sums;
pub use sums::FrameSums;
