//! Where a step of a run stands: its moment on the screen, and where the ports to the picture unit's memories point.
//!
//! `Now` has the stamp of a step and what the picture unit does then. Its `moment` is what the rules of `lint_rules` are
//! asked by. Each function has a clause that says exactly what it returns.
#![tactic(auto)]

mod now;
mod ports;

pub use now::Now;
pub use ports::{Ports, oam_place, vram_place};
