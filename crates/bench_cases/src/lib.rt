//! The cases of a bench file: which cartridges are run, and what is expected of each.
//!
//! `read_cases` reads the TOML of such a file (`docs/use/BENCH.md` has its form). A key that is not known, or a value of
//! the wrong kind, is refused with the place of its table. `bench_checks` has what a case is, and when it is met. Nothing
//! here opens a file or runs a cartridge.
#![tactic(auto)]

mod fields;
mod reading;
mod warnings;

pub use reading::read_cases;
