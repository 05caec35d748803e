// Two files that a run needs besides a cartridge, free for all. They are a boot ROM of the sound processor that speaks
// the upload protocol, and the interpolation table of the S-DSP.
//
// Builds on the plain types. A definition gives every byte and number. The boot ROM's listing is
// `examples/spc700/boot.lst`; `tools/gate/check_listings.py` assembles it and compares. The table comes from
// `tools/make_table.py`.
#![tactic(auto)]

mod boot;
mod interpolation;

pub use boot::free_boot_rom;
pub use interpolation::{interpolation_file, interpolation_table};
