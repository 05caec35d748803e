// The formats of the files that `snes` writes, and of the ones that other programs open, byte for byte.
//
// `film` reads raw frames and samples piece by piece from any reader, and detects a cut file. `colours` makes 24-bit
// colours of 15-bit ones; `png` and `wav` make whole files of pictures and of samples. Every call that
// makes bytes says exactly which, or (of a PNG) what they show, by the definitions in `specs/`. Nothing here opens a
// file.
#![tactic(auto)]

mod adler;
mod apart;
mod bits;
mod checksums;
mod codes;
mod colours;
mod deflate;
mod film;
mod mixed;
mod numbers;
mod palette;
mod pictures;
mod png;
mod rows;
mod token;
mod wav;

pub use adler::Adler;
pub use apart::first_apart;
pub use checksums::crc_of_chunk;
pub use colours::Colour;
pub use film::{Piece, read_piece};
pub use mixed::{SMALL_WIDTH, push_marked_row, push_small_row};
pub use numbers::{push_big4, push_little2, push_little4, push_little8, push_low4};
pub use pictures::{frame_png, marked_png};
pub use png::png_file;
pub use rows::{dot_of_row, push_row};
pub use wav::wav_header;

/// The dots of a row.
pub const WIDTH: usize = 512;

/// The rows of a frame.
pub const HEIGHT: usize = 239;

/// The bytes of a row: two a dot.
pub const ROW_BYTES: usize = 1024;

/// The bytes of a frame.
pub const FRAME_BYTES: usize = 244_736;

/// The bytes of a sample: left, then right.
pub const SAMPLE_BYTES: usize = 4;
