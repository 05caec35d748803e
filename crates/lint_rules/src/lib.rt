//! The rules by which `lint` warns: what a console would not forgive, decided on plain numbers.
//!
//! No console is in this crate. Each decider takes an access, the moment at which it is made, and what the program did
//! before, and returns the rule that the access breaks, if it breaks one. Its clause says exactly when. `Findings` keeps
//! where each rule was broken, how often, and when first and last.
#![tactic(auto)]

mod addresses;
mod arithmetic;
mod echo;
mod file;
mod findings;
mod moment;
mod objects;
mod pads;
mod picture;
mod profile;
mod rule;
mod screen;
mod shown;
mod slivers;
mod sound;
mod transfers;
mod turned;
mod windows;
mod written;

pub use addresses::{Access, At, address_rule, opcode_rule, stack_rule};
pub use arithmetic::{Asked, arithmetic_rule};
pub use echo::{Echo, EndxPolls};
pub use file::{
    MapPlace, checksum_rule, complement_of, interrupt_rule, map_rule, reset_rule, size_rule,
    speed_rule,
};
pub use findings::{Cause, Finding, Findings, Unit};
pub use moment::Moment;
pub use objects::{Object, flip_rule};
pub use pads::{Polls, pad_rule};
pub use picture::{memory_of, picture_rule};
pub use profile::{edge_rule, latch_rule, register_rule, status_rule, timer_rule};
pub use rule::{RULES, Rule, Severity, rule_named};
pub use screen::{Masks, Screen, backdrop_rule, unset_rule};
pub use shown::{Depth, Plane, Scroll, colour_of, depth_of, value_of};
pub use slivers::ObjectTiles;
pub use sound::{key_off_rule, key_on_rule, selector_rule};
pub use transfers::{channel_rule, enable_rule, transfer_rule};
pub use turned::{Turned, is_outside, turned_map_word, turned_tile_word};
pub use written::Written;
