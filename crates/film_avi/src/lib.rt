// The bytes of AVI files: a film's picture and sound in one file, uncompressed and in step.
//
// `blocks` has the headers and entries, each exact by its clause; `layout` says where the parts of a file are;
// `parts` puts the two together. Nothing here opens a file: `parts` says what a caller writes, in which order.
#![tactic(auto)]

mod blocks;
mod layout;
mod parts;
mod shown;

pub use blocks::{push_chunk, push_head};
pub use layout::{Layout, PART_FRAMES, samples_upto};
pub use parts::{PICTURE_BYTES, file_head, indexes, part_head};
pub use shown::push_turned;
