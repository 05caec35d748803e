// The files that the program makes by itself: the cartridge of a number, and the boot ROM and table of the demo on it.
//
// Builds on the plain types. A definition gives every byte; only `image` allocates.
#![tactic(auto)]

mod demo;
mod image_file;

pub use demo::{demo_boot_rom, demo_table};
pub use image_file::image;
