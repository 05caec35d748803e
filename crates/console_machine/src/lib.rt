//! The console side as a machine. A step is one access or internal cycle of the 65C816, one refresh, one byte of a
//! transfer or one reset.
//!
//! Builds on `console_steps`. The halves of a step are joined here in the order in which they are due, behind the
//! trait `Machine`. What a step means is `console_steps/specs/ConsoleState.antt`. `console_is_lawful` of
//! `specs/SideLaws.antt` says that its moves are those of a machine of either region. A step lasts 6 to 40 clocks,
//! emits at most one row, and acts at ports below 4 with bytes. `advance.rt` runs many steps in one call, with the
//! ports behind the machine as a value of the trait `Ports`; `port_runs.rt` makes those between two places of the
//! beam.
#![tactic(auto)]

mod acts;
mod advance;
mod many_steps;
mod parts;
mod patience;
mod port_runs;
mod side;
mod step;

pub use side::ConsoleSide;
