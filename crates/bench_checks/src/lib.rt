//! What a bench file asks of a run, when it is met, and the verdict on a case.
//!
//! `Case` has what a file says of a cartridge: how it is run, and what is expected. The functions of `met` decide
//! whether what came is as expected. `read_golden` reads a file of golden sums. `Verdict` is what is known of a case
//! after its run, and `counts_of` counts how cases ended. Nothing here reads TOML, opens a file or runs a cartridge.
#![tactic(auto)]

mod counts;
mod met;
mod plan;
mod sums;
mod verdict;

pub use counts::{Counts, counts_of};
pub use met::{is_heard_as, is_silent, is_sum_met, is_without_warnings, warnings_in};
pub use plan::{Address, Case, Expected, FrameCheck, Memory, MemoryCheck, NoWarnings, Reach};
pub use sums::{Sum, read_golden};
pub use verdict::{End, Golden, Shot, Verdict};
