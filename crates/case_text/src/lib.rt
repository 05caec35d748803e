//! Readers for files of test vectors: numbers in digits, the generator of bytes and tables, and the hash that
//! identifies long outputs.
//!
//! A file of cases has a case a line or a block, in words with spaces between. Decimal numbers are
//! those of `str::parse`; `hexadecimal` reads the others. The crate depends on `hex` alone, and is for
//! the programs that run cases, rows and scenes.
#![tactic(auto)]

mod generator;
mod hash;
mod number;

pub use generator::Generator;
pub use hash::{hashed, no_hash};
pub use number::{hexadecimal, part, put};
