//! A run of a job under the watch of `lint`'s rules: each access of both machines is shown to the deciders of `lint_rules`.
//!
//! `watch_job` does all of it: it checks the file, runs the frames and returns what was found, in order. Who wants to do something
//! between two frames takes a `WatchedRun`. `Allowed` is what may be broken, and `remaining` says which findings are left.
//!
//! The steps are those of the serial console (`serial_console`), one after another. The machines are read and never changed by
//! the watch, so the run is that of `snes serial`. Nothing here opens a file or prints. All types can be sent to another thread.
#![tactic(auto)]

mod allowed;
mod chip;
mod header;
mod lines;
mod names;
mod ports;
mod run;
mod seen;
mod shown;
mod shown_line;
mod sound_watch;
mod steps;
mod watch;

pub use allowed::{Allowed, remaining};
pub use header::{check_file, checksum_of, front_of, no_header, other_map_byte};
pub use names::Sources;
pub use run::{WatchedRun, watch_job};
